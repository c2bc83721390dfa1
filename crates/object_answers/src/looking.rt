ghost use Rattle.std.specs.Prelude.{◌≡◌, ◌++◌, List, [], ◌∷◌, IfOk, OnOk, map};
ghost use Rattle.space_scope.specs.Spaces.{space_text};
ghost use Rattle.store_words.specs.Words.{reply_of};
ghost use Rattle.call_model.specs.Acts.{raw_of as raw_in};
ghost use Rattle.call_model.specs.Steps.{Look as ModelLook, form, look_over, look_words, looks as looks_of, seen_over, got as got_in};
ghost use Rattle.call_model.specs.Plans.{looked_raws as raws_to_look, looked, found_answer as answer_of_found};
ghost use Rattle.call_words.specs.Told.{answer_with_token};
ghost use Rattle.object_answers.specs.Mapped.{look_of, found_of, row_of};

use crate::forms::in_form;
use crate::rows::{raw_at, seen_row, shown_at};
use call_words::{Answer, Refuse, Target, look_refusal};
use plain_data::{List, Text};
use saved_doc::Row;
use space_scope::Space;
use std::alloc::{AllocError, Global};
use store_words::Reply;
use type_registry::Registry;

/// A target of a get or a bulkGet.
#[derive(Debug, Drop)]
pub enum Look {
    /// Its own words refuse it.
    Refuses(Refuse),
    /// It is to be looked up.
    At(Target),
}

/// The targets of a read, each refused by its own words or to be looked up.
pub fn looks(
    alloc: Global,
    reg: &Registry,
    targets: &List<Target>,
) -> Result<List<Look>, AllocError>
    ensures { IfOk result (λ looks. map look_of looks ≡ looks_of reg.now targets.now) }
{
    let mut all = List::new(alloc);
    for target in targets.as_slice() {
        all.push(look_at(reg, target)?)?;
    }
    Ok(all)
}

/// A target, which its own words refuse or which is to be looked up.
fn look_at(reg: &Registry, target: &Target) -> Result<Look, AllocError>
    ensures { IfOk result (λ look. look_of look ≡ look_over (look_words reg.now target.now) target.now) }
{
    match look_refusal(reg, target) {
        Some(refuse) => Ok(Look::Refuses(refuse)),
        None => {
            let target = target.clone()?;
            Ok(Look::At(target))
        }
    }
}

/// The raw ids of the targets to look up, in their order.
pub fn looked_raws(
    alloc: Global,
    reg: &Registry,
    space: &Space,
    looks: &List<Look>,
) -> Result<List<Text>, AllocError>
    ensures { IfOk result (λ raws. raws ≡ raws_to_look reg.now (space_text space.now) (map look_of looks.now)) }
{
    let mut raws = List::new(alloc);
    for look in looks.as_slice() {
        add_raw(alloc, reg, space, look, &mut raws)?;
    }
    Ok(raws)
}

/// Adds the raw id of a target to look up. After want of memory it may be missing.
fn add_raw(
    alloc: Global,
    reg: &Registry,
    space: &Space,
    look: &Look,
    raws: &mut List<Text>,
) -> Result<(), AllocError>
    ensures { OnOk result ((looks : List ModelLook) → raws.new ++ raws_to_look reg.now (space_text space.now) looks ≡ raws.old ++ raws_to_look reg.now (space_text space.now) (look_of look.now ∷ looks)) }
{
    if let Look::At(target) = look {
        raws.push(raw_at(alloc, reg, space, target)?)?;
    }
    Ok(())
}

/// The answer where no target is left to look up.
pub fn refused_answer(
    alloc: Global,
    reg: &Registry,
    alone: bool,
    space: &Space,
    looks: &List<Look>,
) -> Result<Answer, AllocError>
    ensures { IfOk result (λ answer. answer ≡ answer_with_token (form alone (looked reg.now (space_text space.now) (map look_of looks.now) []))) }
{
    let answers = answers_of(alloc, reg, space, looks, &[])?;
    in_form(alloc, alone, answers)
}

/// The answer from the reply to a read: the objects of the rows that were found, each where it has
/// its type and is visible in the space, and else `NotFound`. Any other reply is answered as
/// `NotReady`.
pub fn found_answer(
    alloc: Global,
    reg: &Registry,
    alone: bool,
    space: &Space,
    looks: &List<Look>,
    reply: &Reply,
) -> Result<Answer, AllocError>
    ensures { IfOk result (λ answer. answer ≡ answer_with_token (answer_of_found reg.now alone (space_text space.now) (map look_of looks.now) (reply_of reply.now))) }
{
    match reply {
        Reply::Found(rows) => {
            let answers = answers_of(alloc, reg, space, looks, rows.as_slice())?;
            in_form(alloc, alone, answers)
        }
        _ => Ok(Answer::Refused(Refuse::NotReady)),
    }
}

/// The answers to the targets, from the rows that were found, one for each target to look up.
#[tactic(auto, unfolding(call_model::specs::Plans::looked))]
fn answers_of(
    alloc: Global,
    reg: &Registry,
    space: &Space,
    looks: &List<Look>,
    rows: &[Option<Row>],
) -> Result<List<Answer>, AllocError>
    ensures { IfOk result (λ answers. answers ≡ map answer_with_token (looked reg.now (space_text space.now) (map look_of looks.now) (found_of rows.now))) }
{
    let mut answers = List::new(alloc);
    let mut rest = rows;
    for look in looks.as_slice() {
        rest = add_answer(alloc, reg, space, look, rest, &mut answers)?;
    }
    Ok(answers)
}

/// Adds the answer to a target, and tells the rows that are left for the others. After want of
/// memory it may be missing.
#[tactic(auto, unfolding(call_model::specs::Plans::looked))]
fn add_answer<'a>(
    alloc: Global,
    reg: &Registry,
    space: &Space,
    look: &Look,
    rows: &'a [Option<Row>],
    answers: &mut List<Answer>,
) -> Result<&'a [Option<Row>], AllocError>
    ensures { IfOk result (λ rest. (looks : List ModelLook) → answers.new ++ map answer_with_token (looked reg.now (space_text space.now) looks (found_of rest.now)) ≡ answers.old ++ map answer_with_token (looked reg.now (space_text space.now) (look_of look.now ∷ looks) (found_of rows.now))) }
{
    match look {
        Look::Refuses(refuse) => {
            answers.push(Answer::Refused(*refuse))?;
            Ok(rows)
        }
        Look::At(target) => match rows.split_first() {
            Some((row, rest)) => {
                answers.push(got(alloc, reg, space, target, row)?)?;
                Ok(rest)
            }
            None => Ok(rows),
        },
    }
}

/// The answer to a target that was looked up.
fn got(
    alloc: Global,
    reg: &Registry,
    space: &Space,
    target: &Target,
    row: &Option<Row>,
) -> Result<Answer, AllocError>
    ensures { IfOk result (λ answer. answer ≡ answer_with_token (got_in reg.now (raw_in reg.now (space_text space.now) target.now) (seen_over reg.now (space_text space.now) target.now (row_of row.now)))) }
{
    match seen_row(reg, space, target, row) {
        Some(row) => {
            let raw = raw_at(alloc, reg, space, target)?;
            let object = shown_at(alloc, reg, raw, row)?;
            Ok(Answer::Object(object))
        }
        None => Ok(Answer::Refused(Refuse::NotFound)),
    }
}
