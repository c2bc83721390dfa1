ghost use Rattle.std.specs.Prelude.{◌≡◌, List, IfOk, map};
ghost use Rattle.so_js.specs.declared.js.Js.{Js};
ghost use Rattle.call_model.specs.Calls.{Answer as ModelAnswer};
ghost use Rattle.call_model.specs.Steps.{form};
ghost use Rattle.call_words.specs.Told.{answer_with_token};
ghost use Rattle.object_answers.specs.Forms.{first_of, item_of};

use call_words::{Answer, One, Refuse};
use plain_data::List;
use std::alloc::{AllocError, Global};

/// The answer to a call from the answers to its items: the first of them for a call of one object,
/// or all of them for a bulk, whose items answer objects and refusals alone.
#[tactic(auto, using(crate::proofs::Tokens::items_with_token))]
pub fn in_form(alloc: Global, alone: bool, answers: List<Answer>) -> Result<Answer, AllocError>
    ensures { (all : List (ModelAnswer Js)) → answers ≡ map answer_with_token all → IfOk result (λ answer. answer ≡ answer_with_token (form alone all)) }
{
    if alone {
        Ok(first(alloc, answers))
    } else {
        let ones = items(alloc, answers)?;
        Ok(Answer::Each(ones))
    }
}

/// The first answer, or that of a bulk of no item where there is none.
fn first(alloc: Global, mut answers: List<Answer>) -> Answer
    ensures { result ≡ first_of answers }
{
    if answers.is_empty() {
        return Answer::Each(List::new(alloc));
    }
    answers.remove(0)
}

fn items(alloc: Global, answers: List<Answer>) -> Result<List<One>, AllocError>
    ensures { IfOk result (λ ones. ones ≡ map item_of answers) }
{
    let mut ones = List::new(alloc);
    for answer in answers.into_vec() {
        ones.push(item(answer))?;
    }
    Ok(ones)
}

fn item(answer: Answer) -> One
    ensures { result ≡ item_of answer }
{
    match answer {
        Answer::Object(object) => One::Object(object),
        Answer::Refused(refuse) => One::Refused(refuse),
        _ => One::Refused(Refuse::NotFound),
    }
}
