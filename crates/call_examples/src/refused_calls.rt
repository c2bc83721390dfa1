//! Calls on a store where no instance has made the index yet, or one has blocked it.
use crate::stores::{INDEX, call, line, registry, store};
use own_link::{OwnLink, call_on};
use plain_data::{List, Text};
use std::alloc::Global;
use std::test::Fail;
use store_core::StoreCore;
use store_words::{How, Request};
use type_registry::Registry;

/// Calls of client 1, each with the line of its answer, on a store without indices.
const NOT_READY: &str = r#"
    {"do":"create","type":"map","id":"m","attributes":{}} => {"actor":101,"answer":{"error":{"code":8,"name":"NotReady"}},"line":"answer","tag":1}
    {"do":"get","type":"lens","id":"m"} => {"actor":101,"answer":{"error":{"code":3,"name":"UnsupportedType"}},"line":"answer","tag":2}
    {"do":"bulkCreate","objects":[{"type":"map","id":"m","attributes":{}},{"type":"lens","id":"m","attributes":{}}]} => {"actor":101,"answer":{"error":{"code":8,"name":"NotReady"}},"line":"answer","tag":3}
"#;

/// The same on a store with the map `m`, once its index is blocked. A create meets the block, since it
/// reads nothing before; an update meets the missing object.
const BLOCKED: &str = r#"
    {"do":"create","type":"map","id":"m","attributes":{}} => {"actor":101,"answer":{"error":{"code":7,"name":"WriteBlocked"}},"line":"answer","tag":1}
    {"do":"update","type":"map","id":"k","attributes":{}} => {"actor":101,"answer":{"error":{"code":1,"name":"NotFound"}},"line":"answer","tag":2}
    {"do":"get","type":"map","id":"m"} => {"actor":101,"answer":{"ok":{"attributes":{"n":1},"id":"m","namespaces":["default"],"references":[],"type":"map","version":"WzAsMV0="}},"line":"answer","tag":3}
    {"do":"bulkCreate","objects":[{"type":"map","id":"k","attributes":{}},{"type":"map","id":"k","attributes":{}},{"type":"map","id":"j","attributes":{}}]} => {"actor":101,"answer":{"ok":[{"error":{"code":7,"name":"WriteBlocked"}},{"error":{"code":2,"name":"Conflict"}},{"error":{"code":7,"name":"WriteBlocked"}}]},"line":"answer","tag":4}
"#;

const MAP: &str = r#"{"type":"map","map":{"n":1},"references":[]}"#;

/// The line of the answer to a call of client 1.
fn answered(
    alloc: Global,
    reg: &Registry,
    link: &mut OwnLink,
    tag: u64,
    text: &str,
) -> Result<String, Fail> {
    let call = call(alloc, text)?;
    let answer = call_on(alloc, reg, &call, tag, link)?;
    line(alloc, 101, tag, answer)
}

/// The first line that differs from the one beside its call; or none.
fn first_other(
    alloc: Global,
    reg: &Registry,
    link: &mut OwnLink,
    calls: &str,
) -> Result<String, Fail> {
    let mut tag = 0u64;
    for made in calls.trim().lines() {
        let (text, want) = made.trim().split_once(" => ").ok_or("a call")?;
        tag = tag.saturating_add(1);
        let told = answered(alloc, reg, link, tag, text)?;
        if told.strip_suffix('\n') != Some(want) {
            return Ok(told);
        }
    }
    Ok(String::new(alloc))
}

/// The same of the calls of client 1 on a store.
fn first_other_on(
    alloc: Global,
    reg: &Registry,
    core: StoreCore,
    calls: &str,
) -> Result<String, Fail> {
    let mut link = OwnLink::new(core, 101);
    first_other(alloc, reg, &mut link, calls)
}

/// A store with the map `m` whose index instance 1 has blocked.
fn blocked(alloc: Global) -> Result<StoreCore, Fail> {
    let index = Text::from_str(alloc, INDEX)?;
    let block = Request::Block { index };
    let mut core = store(alloc, "map:m", MAP)?;
    match core.send(1, 1, How::Heard, &block) {
        Ok(_) => Ok(core),
        Err(error) => Err(error.into()),
    }
}

#[test]
fn a_call_beside_an_instance_is_refused(rt: HostRuntime) -> Result<(), Fail> {
    let alloc = rt.alloc();
    let reg = registry(alloc)?;
    let none = StoreCore::open(List::new(alloc), List::new(alloc), 1_000)?;
    let other = first_other_on(alloc, &reg, none, NOT_READY)?;
    assert_eq!(rt; other.as_str(), "");
    let other = first_other_on(alloc, &reg, blocked(alloc)?, BLOCKED)?;
    assert_eq!(rt; other.as_str(), "");
    Ok(())
}
