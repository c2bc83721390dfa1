ghost use Rattle.std.specs.Prelude.{◌≡◌, ◌≤◌, ◌<◌, ◌↔◌, IsTrue, IfOk, true};
ghost use Rattle.serde_json.specs.Data.{depth as nesting, items_depth, members_depth};
ghost use Rattle.serde_json.specs.View.{view, items_view, members_view};
ghost use Rattle.so_js.specs.Tree.{tree_of, trees_of, tree_members_of, is_sound};
ghost use Rattle.so_js.specs.Reading.{Gives, Converts, ReadsValue, tree_in};

use crate::error::JsError;
use crate::js::{Js, Member};
use plain_data::{List, Text};
use serde_json::{Map, Value};
use std::alloc::Global;

/// The tree that the bytes stand for. Of a repeated key the last value stays.
///
/// Refused by the first of these: `BadJson`, `TooDeep` where lists and objects nest deeper than
/// `depth`, and `Fraction`. The last two are judged on the tree that is left once repeated keys
/// are merged. With `depth` 127 `TooDeep` never comes.
pub fn parse(alloc: Global, bytes: &[u8], depth: u32) -> Result<Js, JsError>
    requires { depth ≤ 127 }
    ensures exact { Gives result (tree_in depth bytes.now) }
    ensures sound { IfOk result (λ js. is_sound js ≡ true) }
{
    let value = read(alloc, bytes)?;
    if !nests_within(&value, depth) {
        return Err(JsError::TooDeep);
    }
    tree(alloc, value)
}

fn read(alloc: Global, bytes: &[u8]) -> Result<Value, JsError>
    ensures { ReadsValue result bytes.now }
{
    match Value::from_slice(alloc, bytes) {
        Ok(value) => Ok(value),
        Err(error) if error.is_memory() => Err(JsError::Memory),
        Err(_) => Err(JsError::BadJson),
    }
}

#[cycle(nests)]
fn nests_within(value: &Value, depth: u32) -> bool
    ensures { IsTrue result ↔ (nesting (view value.now) ≤ depth) }
{
    match value {
        Value::Array(items) => depth > 0 && items_nest_within(items, depth - 1),
        Value::Object(members) => depth > 0 && members_nest_within(members, depth - 1),
        _ => true,
    }
}

#[cycle(nests)]
fn items_nest_within(items: &Vec<Value>, depth: u32) -> bool
    ensures { IsTrue result ↔ (items_depth (items_view items.now.items) ≤ depth) }
{
    for item in items {
        if !nests_within(item, depth) {
            return false;
        }
    }
    true
}

#[cycle(nests)]
fn members_nest_within(members: &Map<String, Value>, depth: u32) -> bool
    ensures { IsTrue result ↔ (members_depth (members_view members.now.entries) ≤ depth) }
{
    for (_, member) in members.iter() {
        if !nests_within(member, depth) {
            return false;
        }
    }
    true
}

#[cycle(tree)]
fn tree(alloc: Global, value: Value) -> Result<Js, JsError>
    ensures { Converts result (tree_of (view value)) }
{
    match value {
        Value::Null => Ok(Js::Null),
        Value::Bool(b) => Ok(Js::Bool(b)),
        Value::Number(number) => match number.as_i128() {
            Some(whole) => Ok(Js::Whole(whole)),
            None => Err(JsError::Fraction),
        },
        Value::String(text) => Ok(Js::Str(Text::from_string(text))),
        Value::Array(items) => Ok(Js::Items(trees(alloc, items)?)),
        Value::Object(members) => Ok(Js::Object(tree_members(alloc, members)?)),
    }
}

#[cycle(tree)]
fn trees(alloc: Global, items: Vec<Value>) -> Result<List<Js>, JsError>
    ensures { Converts result (trees_of (items_view items.items)) }
{
    let mut all = List::new(alloc);
    for item in items {
        all.push(tree(alloc, item)?)?;
    }
    Ok(all)
}

#[cycle(tree)]
fn tree_members(alloc: Global, members: Map<String, Value>) -> Result<List<Member>, JsError>
    ensures { Converts result (tree_members_of (members_view members.entries)) }
{
    let mut all = List::new(alloc);
    for (key, member) in members {
        let key = Text::from_string(key);
        let value = tree(alloc, member)?;
        all.push(Member { key, value })?;
    }
    Ok(all)
}
