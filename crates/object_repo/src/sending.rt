ghost use Rattle.std.specs.Prelude.{◌≡◌, ◌≤◌, ℕ, Some, IfOk, IfErr};
ghost use Rattle.std.specs.Option.{IsSome};
ghost use Rattle.race_model.specs.Stores.{Reply as ModelReply};
ghost use Rattle.document_model.specs.Documents.{Doc};
ghost use Rattle.so_js.specs.declared.js.Js.{Js};
ghost use Rattle.store_words.specs.Links.{Rose};
ghost use Rattle.object_ops.specs.Stages.{CanGoOn, answer_in, went_on};
ghost use Rattle.object_ops.specs.Mapped.{progress_of};
ghost use Rattle.object_repo.specs.Sending.{IsSmall, IsLast, Sent, Went, Halted, Ended, Ran, Broke};

use call_words::Answer;
use object_ops::Plan;
use std::alloc::Global;
use store_words::{Link, LinkError, Reply};
use type_registry::Registry;

/// Sends the request of a plan.
fn sent<L: Link>(tag: u64, plan: &Plan, link: &mut L) -> Result<Reply, LinkError>
    requires { IsSmall (progress_of plan.now).ask }
    ensures sent { Sent (progress_of plan.now).ask (L.failed link.old) tag result (L.entries link.old) (L.entries link.new) }
    ensures origin { L.origin link.new ≡ L.origin link.old }
    ensures limit { L.limit link.new ≡ L.limit link.old }
    ensures failed { IfOk result (λ _. L.failed link.new ≡ L.failed link.old) }
    ensures faults { L.faults link.old ≤ L.faults link.new }
    ensures fault { IfErr result (λ e. e ≡ LinkError.Fault → Rose (L.faults link.old) (L.faults link.new)) }
    ensures full_answers { L.full_answers link.old ≤ L.full_answers link.new }
    ensures full { IfErr result (λ e. (n : ℕ) → e ≡ LinkError.JournalFull n → (n ≡ L.limit link.old) × Rose (L.full_answers link.old) (L.full_answers link.new)) }
{
    match plan.request() {
        Some(request) => link.send(tag, request),
        None => unreachable!(),
    }
}

/// Sends the request of a plan, and goes on with its reply.
fn answered<L: Link>(
    alloc: Global,
    reg: &Registry,
    tag: u64,
    plan: &mut Plan,
    link: &mut L,
) -> Result<(), LinkError>
    requires asks { IsSmall (progress_of plan.old).ask }
    requires goes_on { CanGoOn reg.now (progress_of plan.old).stage }
    ensures ok { IfOk result (λ _. Went reg.now (progress_of plan.old) (progress_of plan.new) (L.failed link.old) tag (L.entries link.old) (L.entries link.new)) }
    ensures err { IfErr result (λ error. Halted (progress_of plan.old) (L.failed link.old) tag (L.entries link.old) (L.entries link.new) error) }
    ensures origin { L.origin link.new ≡ L.origin link.old }
    ensures limit { L.limit link.new ≡ L.limit link.old }
    ensures failed { IfOk result (λ _. L.failed link.new ≡ L.failed link.old) }
    ensures faults { L.faults link.old ≤ L.faults link.new }
    ensures fault { IfErr result (λ e. e ≡ LinkError.Fault → Rose (L.faults link.old) (L.faults link.new)) }
    ensures full_answers { L.full_answers link.old ≤ L.full_answers link.new }
    ensures full { IfErr result (λ e. (n : ℕ) → e ≡ LinkError.JournalFull n → (n ≡ L.limit link.old) × Rose (L.full_answers link.old) (L.full_answers link.new)) }
{
    let reply = match sent(tag, plan, link) {
        Ok(reply) => reply,
        Err(error) => return Err(error),
    };
    match plan.next(alloc, reg, &reply) {
        Ok(()) => Ok(()),
        Err(_) => Err(LinkError::Memory),
    }
}

/// Goes on with a plan after its first reply: nothing is left to do where it has its answer, and else
/// its second request.
fn finished<L: Link>(
    alloc: Global,
    reg: &Registry,
    tag: u64,
    plan: &mut Plan,
    link: &mut L,
) -> Result<(), LinkError>
    requires { IsLast reg.now (progress_of plan.old) }
    ensures ok { IfOk result (λ _. Ended reg.now (progress_of plan.old) (progress_of plan.new) (L.failed link.old) tag (L.entries link.old) (L.entries link.new)) }
    ensures err { IfErr result (λ error. Halted (progress_of plan.old) (L.failed link.old) tag (L.entries link.old) (L.entries link.new) error) }
    ensures answer { IfOk result (λ _. IsSome (answer_in (progress_of plan.new).stage)) }
    ensures origin { L.origin link.new ≡ L.origin link.old }
    ensures limit { L.limit link.new ≡ L.limit link.old }
    ensures failed { IfOk result (λ _. L.failed link.new ≡ L.failed link.old) }
    ensures faults { L.faults link.old ≤ L.faults link.new }
    ensures fault { IfErr result (λ e. e ≡ LinkError.Fault → Rose (L.faults link.old) (L.faults link.new)) }
    ensures full_answers { L.full_answers link.old ≤ L.full_answers link.new }
    ensures full { IfErr result (λ e. (n : ℕ) → e ≡ LinkError.JournalFull n → (n ≡ L.limit link.old) × Rose (L.full_answers link.old) (L.full_answers link.new)) }
{
    if plan.request().is_none() {
        return Ok(());
    }
    answered(alloc, reg, tag, plan, link)
}

/// Makes the requests of a plan, one after the other, until it has its answer.
pub fn run<L: Link>(
    alloc: Global,
    reg: &Registry,
    tag: u64,
    plan: &mut Plan,
    link: &mut L,
) -> Result<(), LinkError>
    requires asks { IsSmall (progress_of plan.old).ask }
    requires goes_on { CanGoOn reg.now (progress_of plan.old).stage }
    requires last { (reply : ModelReply (Doc Js)) → IsLast reg.now (went_on reg.now (progress_of plan.old).stage reply) }
    ensures ok { IfOk result (λ _. Ran reg.now (progress_of plan.old) (progress_of plan.new) (L.failed link.old) tag (L.entries link.old) (L.entries link.new)) }
    ensures err { IfErr result (λ error. Broke reg.now (progress_of plan.old) (L.failed link.old) tag (L.entries link.old) (L.entries link.new) error) }
    ensures answer { IfOk result (λ _. IsSome (answer_in (progress_of plan.new).stage)) }
    ensures origin { L.origin link.new ≡ L.origin link.old }
    ensures limit { L.limit link.new ≡ L.limit link.old }
    ensures failed { IfOk result (λ _. L.failed link.new ≡ L.failed link.old) }
    ensures faults { L.faults link.old ≤ L.faults link.new }
    ensures fault { IfErr result (λ e. e ≡ LinkError.Fault → Rose (L.faults link.old) (L.faults link.new)) }
    ensures full_answers { L.full_answers link.old ≤ L.full_answers link.new }
    ensures full { IfErr result (λ e. (n : ℕ) → e ≡ LinkError.JournalFull n → (n ≡ L.limit link.old) × Rose (L.full_answers link.old) (L.full_answers link.new)) }
{
    match answered(alloc, reg, tag, plan, link) {
        Ok(()) => finished(alloc, reg, tag, plan, link),
        Err(error) => Err(error),
    }
}

/// The answer of a plan that has one. Takes no memory.
pub fn answer_of(plan: Plan) -> Answer
    requires { IsSome (answer_in (progress_of plan).stage) }
    ensures { answer_in (progress_of plan).stage ≡ Some result }
{
    match plan.into_answer() {
        Some(answer) => answer,
        None => unreachable!(),
    }
}
