ghost use Rattle.std.specs.Prelude.{◌≡◌, ◌≤◌, ℕ, IfOk, IfErr};
ghost use Rattle.store_words.specs.Links.{Rose};
ghost use Rattle.call_words.specs.Limits.{HasFewObjects};
ghost use Rattle.call_words.specs.Mapped.{call_of};
ghost use Rattle.object_repo.specs.Performing.{Performs, Stops};

use crate::sending::{answer_of, run};
use call_words::{Answer, Call};
use object_ops::{Plan, plans_follow_the_definition};
use std::alloc::Global;
use store_words::{Link, LinkError};
use type_registry::Registry;

/// Makes a call over a link, under this tag: exactly the requests of the call's plan, one after the
/// other, and its answer.
///
/// Where a send fails the call stops there: `Fault` comes only where the link's count of faults rose,
/// `JournalFull` with the link's limit only where its count of full answers rose, and `Memory` where
/// memory ran out.
pub fn perform<L: Link>(
    alloc: Global,
    reg: &Registry,
    call: &Call,
    tag: u64,
    link: &mut L,
) -> Result<Answer, LinkError>
    requires { HasFewObjects call.now }
    ensures ok { IfOk result (λ answer. Performs reg.now (call_of call.now) (L.failed link.old) tag (L.entries link.old) (L.entries link.new) answer) }
    ensures err { IfErr result (λ error. Stops reg.now (call_of call.now) (L.failed link.old) tag (L.entries link.old) (L.entries link.new) error) }
    ensures origin { L.origin link.new ≡ L.origin link.old }
    ensures limit { L.limit link.new ≡ L.limit link.old }
    ensures failed { IfOk result (λ _. L.failed link.new ≡ L.failed link.old) }
    ensures faults { L.faults link.old ≤ L.faults link.new }
    ensures fault { IfErr result (λ e. e ≡ LinkError.Fault → Rose (L.faults link.old) (L.faults link.new)) }
    ensures full_answers { L.full_answers link.old ≤ L.full_answers link.new }
    ensures full { IfErr result (λ e. (n : ℕ) → e ≡ LinkError.JournalFull n → (n ≡ L.limit link.old) × Rose (L.full_answers link.old) (L.full_answers link.new)) }
{
    plans_follow_the_definition();
    let mut plan = match Plan::start(alloc, reg, call) {
        Ok(plan) => plan,
        Err(_) => return Err(LinkError::Memory),
    };
    match run(alloc, reg, tag, &mut plan, link) {
        Ok(()) => Ok(answer_of(plan)),
        Err(error) => {
            drop(plan);
            Err(error)
        }
    }
}
