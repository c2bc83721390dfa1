ghost use Rattle.std.specs.Prelude.{◌≡◌, ◌==◌, IfOk, length, true};
ghost use Rattle.std.specs.Option.{option_copied};
ghost use Rattle.so_js.specs.Tree.{is_sound, members_in, member_of};
ghost use Rattle.transform_ops.specs.Reading.{Gives, op_in, has_count, text_under, rename_in, set_default_in, remove_in, move_into_in, map_text_in, wrap_list_in, table_in, replacements_in, replacement_in};
ghost use Rattle.transform_ops.specs.Effects.{op_is_sound};

use crate::error::OpError;
use crate::op::{Op, Replacement};
use plain_data::{List, Text};
use so_js::{Js, Member, member};
use std::alloc::Global;

/// The operation that the tree stands for: an object whose member `op` names it, with exactly the
/// members of that operation. `BadOp` exactly where the tree is none. `Memory` may come at any place.
pub fn read_op(alloc: Global, js: &Js) -> Result<Op, OpError>
    requires { is_sound js.now ≡ true }
    ensures exact { Gives result (op_in js.now) }
    ensures sound { IfOk result (λ op. op_is_sound op ≡ true) }
{
    let Some(word) = text_of(js, "op") else {
        return Err(OpError::BadOp);
    };
    match word.as_str() {
        "rename" => rename(alloc, js),
        "setDefault" => set_default(alloc, js),
        "remove" => remove(alloc, js),
        "moveInto" => move_into(alloc, js),
        "mapText" => map_text(alloc, js),
        "wrapList" => wrap_list(alloc, js),
        _ => Err(OpError::BadOp),
    }
}

fn rename(alloc: Global, js: &Js) -> Result<Op, OpError>
    ensures exact { Gives result (rename_in js.now) }
    ensures sound { IfOk result (λ op. op_is_sound op ≡ true) }
{
    match (text_of(js, "from"), text_of(js, "to")) {
        (Some(from), Some(to)) if has_members(js, 3) => {
            let from = Text::from_str(alloc, from.as_str())?;
            let to = Text::from_str(alloc, to.as_str())?;
            Ok(Op::Rename { from, to })
        }
        _ => Err(OpError::BadOp),
    }
}

fn set_default(alloc: Global, js: &Js) -> Result<Op, OpError>
    requires { is_sound js.now ≡ true }
    ensures exact { Gives result (set_default_in js.now) }
    ensures sound { IfOk result (λ op. op_is_sound op ≡ true) }
{
    match (text_of(js, "key"), member(js, "value")) {
        (Some(key), Some(value)) if has_members(js, 3) => {
            let key = Text::from_str(alloc, key.as_str())?;
            let value = value.clone()?;
            Ok(Op::SetDefault { key, value })
        }
        _ => Err(OpError::BadOp),
    }
}

fn remove(alloc: Global, js: &Js) -> Result<Op, OpError>
    ensures exact { Gives result (remove_in js.now) }
    ensures sound { IfOk result (λ op. op_is_sound op ≡ true) }
{
    match text_of(js, "key") {
        Some(key) if has_members(js, 2) => {
            let key = Text::from_str(alloc, key.as_str())?;
            Ok(Op::Remove { key })
        }
        _ => Err(OpError::BadOp),
    }
}

fn move_into(alloc: Global, js: &Js) -> Result<Op, OpError>
    ensures exact { Gives result (move_into_in js.now) }
    ensures sound { IfOk result (λ op. op_is_sound op ≡ true) }
{
    match (text_of(js, "key"), text_of(js, "into")) {
        (Some(key), Some(into)) if has_members(js, 3) => {
            let key = Text::from_str(alloc, key.as_str())?;
            let into = Text::from_str(alloc, into.as_str())?;
            Ok(Op::MoveInto { key, into })
        }
        _ => Err(OpError::BadOp),
    }
}

fn map_text(alloc: Global, js: &Js) -> Result<Op, OpError>
    ensures exact { Gives result (map_text_in js.now) }
    ensures sound { IfOk result (λ op. op_is_sound op ≡ true) }
{
    match (text_of(js, "key"), member(js, "table")) {
        (Some(key), Some(table)) if has_members(js, 3) => {
            let key = Text::from_str(alloc, key.as_str())?;
            let table = read_table(alloc, table)?;
            Ok(Op::MapText { key, table })
        }
        _ => Err(OpError::BadOp),
    }
}

fn wrap_list(alloc: Global, js: &Js) -> Result<Op, OpError>
    ensures exact { Gives result (wrap_list_in js.now) }
    ensures sound { IfOk result (λ op. op_is_sound op ≡ true) }
{
    match text_of(js, "key") {
        Some(key) if has_members(js, 2) => {
            let key = Text::from_str(alloc, key.as_str())?;
            Ok(Op::WrapList { key })
        }
        _ => Err(OpError::BadOp),
    }
}

fn text_of<'a>(js: &'a Js, key: &str) -> Option<&'a Text>
    ensures { option_copied result ≡ text_under key.now js.now }
{
    let value = member(js, key)?;
    value.as_text()
}

fn has_members(js: &Js, count: usize) -> bool
    ensures { result ≡ has_count count js.now }
{
    match js {
        Js::Object(members) => members.len() == count,
        _ => count == 0,
    }
}

/// An object of texts.
fn read_table(alloc: Global, js: &Js) -> Result<List<Replacement>, OpError>
    ensures { Gives result (table_in js.now) }
{
    match js {
        Js::Object(members) => read_replacements(alloc, members),
        _ => Err(OpError::BadOp),
    }
}

fn read_replacements(alloc: Global, members: &List<Member>) -> Result<List<Replacement>, OpError>
    ensures { Gives result (replacements_in members.now) }
{
    let mut table = List::new(alloc);
    for member in members.as_slice() {
        table.push(read_replacement(alloc, member)?)?;
    }
    Ok(table)
}

fn read_replacement(alloc: Global, member: &Member) -> Result<Replacement, OpError>
    ensures { Gives result (replacement_in member.now) }
{
    match &member.value {
        Js::Str(to) => {
            let from = member.key.clone()?;
            let to = to.clone()?;
            Ok(Replacement { from, to })
        }
        _ => Err(OpError::BadOp),
    }
}
