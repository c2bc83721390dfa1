ghost use Rattle.std.specs.Prelude.{◌≡◌, [], ◌∷◌, ◌++◌, IfOk, map};
ghost use Rattle.doc_table.specs.Tables.{item_of};
ghost use Rattle.store_words.specs.Words.{reply_of};
ghost use Rattle.call_model.specs.Steps.{form};
ghost use Rattle.call_model.specs.Plans.{answers as answers_of, blocked_answers as answers_where_blocked, bulk_answer as answer_of_bulk};
ghost use Rattle.call_words.specs.Told.{answer_with_token};
ghost use Rattle.object_items.specs.Mapped.{ready_of};
ghost use Rattle.object_items.specs.Answering.{results_behind};

use crate::readying::Ready;
use call_words::{Answer, Refuse};
use doc_table::Item;
use object_acts::told;
use object_answers::in_form;
use plain_data::List;
use std::alloc::{AllocError, Global};
use store_words::{Refusal, Reply};
use type_registry::Registry;

/// The answer of a call that writes none of whose items sends a write.
pub fn settled_answer(
    alloc: Global,
    reg: &Registry,
    alone: bool,
    items: &List<Ready>,
) -> Result<Answer, AllocError>
    ensures { IfOk result (λ answer. answer ≡ answer_with_token (form alone (answers_of reg.now (map ready_of items.now) []))) }
{
    let answers = answers(alloc, reg, items, &[])?;
    in_form(alloc, alone, answers)
}

/// The answer of a call that writes, from the reply to its bulk: what the result of each write says
/// of its item. On a blocked index each item that sends a write is refused as `WriteBlocked`. Any
/// other reply is answered as `NotReady`.
pub fn bulk_answer(
    alloc: Global,
    reg: &Registry,
    alone: bool,
    items: &List<Ready>,
    reply: &Reply,
) -> Result<Answer, AllocError>
    ensures { IfOk result (λ answer. answer ≡ answer_with_token (answer_of_bulk reg.now alone (map ready_of items.now) (reply_of reply.now))) }
{
    match reply {
        Reply::Items(results) => written_answer(alloc, reg, alone, items, results),
        Reply::Refused(Refusal::Blocked(_)) => blocked_answer(alloc, alone, items),
        _ => Ok(Answer::Refused(Refuse::NotReady)),
    }
}

/// The answer from the results of the writes.
fn written_answer(
    alloc: Global,
    reg: &Registry,
    alone: bool,
    items: &List<Ready>,
    results: &List<Item>,
) -> Result<Answer, AllocError>
    ensures { IfOk result (λ answer. answer ≡ answer_with_token (form alone (answers_of reg.now (map ready_of items.now) (map item_of results.now)))) }
{
    let answers = answers(alloc, reg, items, results.as_slice())?;
    in_form(alloc, alone, answers)
}

/// The answer where the index is blocked.
fn blocked_answer(alloc: Global, alone: bool, items: &List<Ready>) -> Result<Answer, AllocError>
    ensures { IfOk result (λ answer. answer ≡ answer_with_token (form alone (answers_where_blocked (map ready_of items.now)))) }
{
    let answers = blocked_answers(alloc, items)?;
    in_form(alloc, alone, answers)
}

/// What the items answer, in their order, by the results of the writes that they sent.
#[tactic(auto, unfolding(call_model::specs::Plans::answers))]
fn answers(
    alloc: Global,
    reg: &Registry,
    items: &List<Ready>,
    results: &[Item],
) -> Result<List<Answer>, AllocError>
    ensures { IfOk result (λ answers. answers ≡ map answer_with_token (answers_of reg.now (map ready_of items.now) (map item_of results.now))) }
{
    let mut answers = List::new(alloc);
    let mut rest = results;
    for item in items.as_slice() {
        rest = add_answer(alloc, reg, &mut answers, item, rest)?;
    }
    Ok(answers)
}

/// Adds what the item answers, by the first of the results where it sent a write, and answers the
/// results that are left. A write without a result gives no answer.
#[tactic(auto, unfolding(call_model::specs::Plans::answers))]
fn add_answer<'a>(
    alloc: Global,
    reg: &Registry,
    answers: &mut List<Answer>,
    item: &Ready,
    results: &'a [Item],
) -> Result<&'a [Item], AllocError>
    ensures more { IfOk result (λ _. answers.new ≡ answers.old ++ map answer_with_token (answers_of reg.now (ready_of item.now ∷ []) (map item_of results.now))) }
    ensures rest { IfOk result (λ rest. rest.now ≡ results_behind (ready_of item.now) results.now) }
{
    match item {
        Ready::Settled(refusal) => {
            answers.push(Answer::Refused(*refusal))?;
            Ok(results)
        }
        Ready::Sends { raw, act, deed } => {
            let Some((result, rest)) = results.split_first() else {
                return Ok(results);
            };
            answers.push(told(alloc, reg, raw, act, deed, *result)?)?;
            Ok(rest)
        }
    }
}

/// What the items answer where the index is blocked, in their order.
fn blocked_answers(alloc: Global, items: &List<Ready>) -> Result<List<Answer>, AllocError>
    ensures { IfOk result (λ answers. answers ≡ map answer_with_token (answers_where_blocked (map ready_of items.now))) }
{
    let mut answers = List::new(alloc);
    for item in items.as_slice() {
        answers.push(answer_blocked(item))?;
    }
    Ok(answers)
}

fn answer_blocked(item: &Ready) -> Answer
    ensures { result ∷ [] ≡ map answer_with_token (answers_where_blocked (ready_of item.now ∷ [])) }
{
    match item {
        Ready::Settled(refusal) => Answer::Refused(*refusal),
        Ready::Sends { .. } => Answer::Refused(Refuse::WriteBlocked),
    }
}
