ghost use Rattle.std.specs.Prelude.{◌≡◌, IfOk, true, is_some, List, Some};
ghost use Rattle.std.specs.Option.{option_copied};
ghost use Rattle.so_js.specs.Tree.{is_sound, object_of, items_of};
ghost use Rattle.so_js.specs.declared.js.Js.{Js};
ghost use Rattle.so_js.specs.declared.js.Member.{Member};
ghost use Rattle.transform_ops.specs.Attributes.{value_at, without};
ghost use Rattle.transform_ops.specs.Effects.{applied, changed, renamed, defaulted, moved, mapped, wrapped, wrapped_in, op_is_sound, replacement, mapped_value, room_in};

use crate::attributes::{has, place, taken, value_of};
use crate::op::{Op, Replacement};
use plain_data::{List, Text};
use so_js::{Js, Member};
use std::alloc::{AllocError, Global};

/// What an operation makes of attributes. It works on their top level, and has an effect on any
/// object or none; a tree that is no object stays. After want of memory the tree is dropped.
pub fn apply(alloc: Global, op: &Op, attributes: Js) -> Result<Js, AllocError>
    requires op { op_is_sound op.now ≡ true }
    requires attributes { is_sound attributes ≡ true }
    ensures value { IfOk result (λ js. js ≡ applied op.now attributes) }
    ensures sound { IfOk result (λ js. is_sound js ≡ true) }
    ensures object { IfOk result (λ js. is_some (object_of js) ≡ is_some (object_of attributes)) }
{
    match attributes {
        Js::Object(members) => {
            let members = change(alloc, op, members)?;
            Ok(Js::Object(members))
        }
        other => Ok(other),
    }
}

fn change(alloc: Global, op: &Op, members: List<Member>) -> Result<List<Member>, AllocError>
    ensures { IfOk result (λ all. all ≡ changed op.now members) }
{
    match op {
        Op::Rename { from, to } => rename(from, to, members),
        Op::SetDefault { key, value } => set_default(key, value, members),
        Op::Remove { key } => remove(key, members),
        Op::MoveInto { key, into } => move_into(alloc, key, into, members),
        Op::MapText { key, table } => map_text(key, table, members),
        Op::WrapList { key } => wrap_list(alloc, key, members),
    }
}

fn rename(from: &Text, to: &Text, mut members: List<Member>) -> Result<List<Member>, AllocError>
    ensures { IfOk result (λ all. all ≡ renamed from.now to.now members) }
{
    if has(&members, to) {
        return Ok(members);
    }
    match taken(&mut members, from) {
        Some(value) => {
            place(&mut members, to, value)?;
            Ok(members)
        }
        None => Ok(members),
    }
}

fn set_default(
    key: &Text,
    value: &Js,
    mut members: List<Member>,
) -> Result<List<Member>, AllocError>
    ensures { IfOk result (λ all. all ≡ defaulted key.now value.now members) }
{
    if has(&members, key) {
        return Ok(members);
    }
    let value = value.clone()?;
    place(&mut members, key, value)?;
    Ok(members)
}

fn remove(key: &Text, mut members: List<Member>) -> Result<List<Member>, AllocError>
    ensures { IfOk result (λ all. all ≡ without key.now members) }
{
    let _removed = taken(&mut members, key);
    Ok(members)
}

fn move_into(
    alloc: Global,
    key: &Text,
    into: &Text,
    mut members: List<Member>,
) -> Result<List<Member>, AllocError>
    ensures { IfOk result (λ all. all ≡ moved key.now into.now members) }
{
    if key.as_str() == into.as_str() || !has_room(&members, into) {
        return Ok(members);
    }
    let Some(value) = taken(&mut members, key) else {
        return Ok(members);
    };
    let mut room = room_of(alloc, taken(&mut members, into));
    let _replaced = taken(&mut room, key);
    place(&mut room, key, value)?;
    place(&mut members, into, Js::Object(room))?;
    Ok(members)
}

/// Whether a member may move under this key: an object is there, or nothing.
fn has_room(members: &List<Member>, into: &Text) -> bool
    ensures { result ≡ is_some (room_in (value_at into.now members.now)) }
{
    match value_of(members, into) {
        None | Some(Js::Object(_)) => true,
        Some(_) => false,
    }
}

/// The members of an object, and none of another tree.
fn room_of(alloc: Global, found: Option<Js>) -> List<Member>
    ensures { (room : List (Member Js)) → room_in found ≡ Some room → result ≡ room }
{
    match found {
        Some(Js::Object(members)) => members,
        _ => List::new(alloc),
    }
}

fn map_text(
    key: &Text,
    table: &List<Replacement>,
    mut members: List<Member>,
) -> Result<List<Member>, AllocError>
    ensures { IfOk result (λ all. all ≡ mapped key.now table.now members) }
{
    let Some(text) = replaced_text(table, &members, key) else {
        return Ok(members);
    };
    let text = text.clone()?;
    let _replaced = taken(&mut members, key);
    place(&mut members, key, Js::Str(text))?;
    Ok(members)
}

/// The text that the table has for the value under a key.
fn replaced_text<'a>(
    table: &'a List<Replacement>,
    members: &List<Member>,
    key: &Text,
) -> Option<&'a Text>
    ensures { option_copied result ≡ mapped_value table.now (value_at key.now members.now) }
{
    let value = value_of(members, key)?;
    let text = value.as_text()?;
    replacement_of(table, text)
}

fn replacement_of<'a>(table: &'a List<Replacement>, text: &Text) -> Option<&'a Text>
    ensures { option_copied result ≡ replacement table.now text.now }
{
    let found = table
        .as_slice()
        .iter()
        .find(|r| r.from.as_str() == text.as_str())?;
    Some(&found.to)
}

fn wrap_list(
    alloc: Global,
    key: &Text,
    mut members: List<Member>,
) -> Result<List<Member>, AllocError>
    ensures { IfOk result (λ all. all ≡ wrapped key.now members) }
{
    let Some(value) = taken(&mut members, key) else {
        return Ok(members);
    };
    let list = as_list(alloc, value)?;
    place(&mut members, key, list)?;
    Ok(members)
}

fn as_list(alloc: Global, value: Js) -> Result<Js, AllocError>
    ensures { IfOk result (λ js. js ≡ wrapped_in (items_of value) value) }
{
    match value {
        Js::Items(items) => Ok(Js::Items(items)),
        other => {
            let mut items = List::new(alloc);
            items.push(other)?;
            Ok(Js::Items(items))
        }
    }
}
