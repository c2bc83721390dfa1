//! Two clients of one store: the second writes an object between the read and the write of the first.
ghost use Rattle.std.specs.Prelude.{IsTrue, IfOk};
ghost use Rattle.store_words.specs.Links.{IsSendable};
ghost use Rattle.call_words.specs.Limits.{HasFewObjects};
ghost use Rattle.object_ops.specs.Stages.{CanGoOn};
ghost use Rattle.object_ops.specs.Mapped.{progress_of};
ghost use Rattle.call_examples.specs.Turns.{ReadsTwo};

use crate::stores::{call, line, registry, store};
use call_words::Call;
use object_ops::{Plan, plans_follow_the_definition};
use std::alloc::Global;
use std::test::Fail;
use store_core::StoreCore;
use store_words::{How, Reply, Request};
use type_registry::Registry;

const TAG: &str = r#"{"type":"tag","tag":{},"references":[],"namespaces":["default"]}"#;

const DELETE: &str = r#"{"do":"delete","type":"tag","id":"t1"}"#;

const UPDATE: &str = r#"{"do":"update","type":"tag","id":"t1","attributes":{"n":1}}"#;

/// The answers to the update, to the delete that it comes between, and to another delete.
const ANSWERS: &str =
    r#"{"actor":102,"answer":{"ok":{"attributes":{"n":1},"id":"t1","namespaces":["default"],"references":[],"type":"tag","version":"WzEsMV0="}},"line":"answer","tag":1}
{"actor":101,"answer":{"error":{"code":11,"name":"Busy","now":1,"seen":0}},"line":"answer","tag":1}
{"actor":101,"answer":{"ok":{}},"line":"answer","tag":2}
"#;

/// Who makes a call, and its number among the calls of this client.
#[derive(Clone, Copy)]
struct Caller {
    actor: u32,
    tag: u64,
}

fn start(alloc: Global, reg: &Registry, call: &Call) -> Result<Plan, Fail>
    requires { HasFewObjects call.now }
    ensures { IfOk result (λ plan. ReadsTwo reg.now (progress_of plan)) }
{
    plans_follow_the_definition();
    match Plan::start(alloc, reg, call) {
        Ok(plan) => Ok(plan),
        Err(_) => Err("memory".into()),
    }
}

/// The plan of a call.
fn planned(alloc: Global, reg: &Registry, text: &str) -> Result<Plan, Fail>
    ensures { IfOk result (λ plan. ReadsTwo reg.now (progress_of plan)) }
{
    let call = call(alloc, text)?;
    start(alloc, reg, &call)
}

/// Whether a request may be sent.
fn is_short(request: &Request) -> bool
    ensures { IsTrue result → IsSendable request.now }
{
    match request {
        Request::Bulk { items, .. } => items.len() <= 65_536,
        _ => true,
    }
}

/// Does the request of a plan.
fn replied(core: &mut StoreCore, caller: Caller, plan: &Plan) -> Result<Reply, Fail> {
    let request = plan.request().ok_or("a request")?;
    if !is_short(request) {
        return Err("a bulk that is too long".into());
    }
    Ok(core.send(caller.actor, caller.tag, How::Heard, request)?)
}

/// Does the request of a plan, which reads the reply.
fn step(
    alloc: Global,
    reg: &Registry,
    core: &mut StoreCore,
    caller: Caller,
    plan: &mut Plan,
) -> Result<(), Fail>
    requires { CanGoOn reg.now (progress_of plan.old).stage }
    ensures { ReadsTwo reg.now (progress_of plan.old) → IfOk result (λ _. CanGoOn reg.now (progress_of plan.new).stage) }
{
    let reply = replied(core, caller, plan)?;
    match plan.next(alloc, reg, &reply) {
        Ok(()) => Ok(()),
        Err(_) => Err("memory".into()),
    }
}

/// Does both requests of a plan.
fn both(
    alloc: Global,
    reg: &Registry,
    core: &mut StoreCore,
    caller: Caller,
    plan: &mut Plan,
) -> Result<(), Fail>
    requires { ReadsTwo reg.now (progress_of plan.old) }
{
    step(alloc, reg, core, caller, plan)?;
    step(alloc, reg, core, caller, plan)
}

/// The line of the answer of a plan.
fn told(alloc: Global, caller: Caller, plan: Plan) -> Result<String, Fail> {
    match plan.into_answer() {
        Some(answer) => line(alloc, caller.actor, caller.tag, answer),
        None => Err("no answer".into()),
    }
}

/// Makes a call whole, and answers its line.
fn made(
    alloc: Global,
    reg: &Registry,
    core: &mut StoreCore,
    caller: Caller,
    text: &str,
) -> Result<String, Fail> {
    let mut plan = planned(alloc, reg, text)?;
    both(alloc, reg, core, caller, &mut plan)?;
    told(alloc, caller, plan)
}

/// Does the two requests of a plan of client 1, and between them an update of client 2, whose line it
/// answers.
fn around(
    alloc: Global,
    reg: &Registry,
    core: &mut StoreCore,
    plan: &mut Plan,
) -> Result<String, Fail>
    requires { ReadsTwo reg.now (progress_of plan.old) }
{
    let first = Caller { actor: 101, tag: 1 };
    let second = Caller { actor: 102, tag: 1 };
    step(alloc, reg, core, first, plan)?;
    let updated = made(alloc, reg, core, second, UPDATE)?;
    step(alloc, reg, core, first, plan)?;
    Ok(updated)
}

/// The lines of the update of client 2 and of the delete of client 1 around it.
fn crossed(alloc: Global, reg: &Registry, core: &mut StoreCore) -> Result<String, Fail> {
    let mut plan = planned(alloc, reg, DELETE)?;
    let mut lines = around(alloc, reg, core, &mut plan)?;
    let deleted = told(alloc, Caller { actor: 101, tag: 1 }, plan)?;
    lines.push_str(deleted.as_str())?;
    Ok(lines)
}

#[test]
fn a_write_between_makes_a_call_busy(rt: HostRuntime) -> Result<(), Fail> {
    let alloc = rt.alloc();
    let reg = registry(alloc)?;
    let mut core = store(alloc, "tag:t1", TAG)?;
    let mut lines = crossed(alloc, &reg, &mut core)?;
    let again = made(
        alloc,
        &reg,
        &mut core,
        Caller { actor: 101, tag: 2 },
        DELETE,
    )?;
    lines.push_str(again.as_str())?;
    assert_eq!(rt; lines.as_str(), ANSWERS);
    Ok(())
}
