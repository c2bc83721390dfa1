//! Calls on objects by their types and ids: get, resolve, bulkGet, delete and share.
ghost use Rattle.std.specs.Prelude.{codes, IfOk};
ghost use Rattle.call_words.specs.Limits.{HasFewObjects};
ghost use Rattle.call_lines.specs.Reading.{Gives, each, optional};
ghost use Rattle.call_lines.specs.Parts.{target_in};
ghost use Rattle.call_lines.specs.Calls.{objects_of, get_in, resolve_in, bulk_get_in, delete_in, share_in};

use crate::error::LineError;
use crate::members::{
    flag, has_other_than, needed_objects, needed_text, needed_texts, optional_text,
};
use call_words::{Call, Target};
use plain_data::{List, Text};
use so_js::{Js, member};
use std::alloc::Global;
use wire_io::InputKind;

/// An object of exactly a type and an id.
fn read_target(alloc: Global, js: &Js) -> Result<Target, LineError>
    ensures { Gives result (target_in js.now) }
{
    let Js::Object(_) = js else {
        return Err(LineError::Refused(InputKind::WrongKind));
    };
    let type_name = needed_text(alloc, js, "type")?;
    let id = needed_text(alloc, js, "id")?;
    if has_other_than(js, &["type", "id"]) {
        return Err(LineError::Refused(InputKind::UnknownField));
    }
    Ok(Target { type_name, id })
}

/// The type and the id under `reference`, if they are there.
pub fn reference(alloc: Global, js: &Js) -> Result<Option<Target>, LineError>
    ensures { Gives result (optional target_in (codes "reference") js.now) }
{
    match member(js, "reference") {
        Some(js) => {
            let target = read_target(alloc, js)?;
            Ok(Some(target))
        }
        None => Ok(None),
    }
}

fn read_each_target(alloc: Global, items: &List<Js>) -> Result<List<Target>, LineError>
    ensures { Gives result (each target_in items.now) }
{
    let mut all = List::new(alloc);
    for item in items.as_slice() {
        all.push(read_target(alloc, item)?)?;
    }
    Ok(all)
}

fn read_targets(alloc: Global, js: &Js) -> Result<List<Target>, LineError>
    ensures { Gives result (objects_of target_in js.now) }
{
    read_each_target(alloc, needed_objects(js)?)
}

/// A get in this space.
pub fn read_get(alloc: Global, space: Text, js: &Js) -> Result<Call, LineError>
    ensures exact { Gives result (get_in space js.now) }
    ensures few { IfOk result (λ call. HasFewObjects call) }
{
    let type_name = needed_text(alloc, js, "type")?;
    let id = needed_text(alloc, js, "id")?;
    if has_other_than(js, &["do", "space", "type", "id"]) {
        return Err(LineError::Refused(InputKind::UnknownField));
    }
    Ok(Call::Get {
        space,
        target: Target { type_name, id },
    })
}

/// A resolve in this space.
pub fn read_resolve(alloc: Global, space: Text, js: &Js) -> Result<Call, LineError>
    ensures exact { Gives result (resolve_in space js.now) }
    ensures few { IfOk result (λ call. HasFewObjects call) }
{
    let type_name = needed_text(alloc, js, "type")?;
    let id = needed_text(alloc, js, "id")?;
    if has_other_than(js, &["do", "space", "type", "id"]) {
        return Err(LineError::Refused(InputKind::UnknownField));
    }
    Ok(Call::Resolve {
        space,
        target: Target { type_name, id },
    })
}

/// A bulkGet in this space.
pub fn read_bulk_get(alloc: Global, space: Text, js: &Js) -> Result<Call, LineError>
    ensures exact { Gives result (bulk_get_in space js.now) }
    ensures few { IfOk result (λ call. HasFewObjects call) }
{
    let objects = read_targets(alloc, js)?;
    if has_other_than(js, &["do", "space", "objects"]) {
        return Err(LineError::Refused(InputKind::UnknownField));
    }
    Ok(Call::BulkGet { space, objects })
}

/// A delete in this space.
pub fn read_delete(alloc: Global, space: Text, js: &Js) -> Result<Call, LineError>
    ensures exact { Gives result (delete_in space js.now) }
    ensures few { IfOk result (λ call. HasFewObjects call) }
{
    let type_name = needed_text(alloc, js, "type")?;
    let id = needed_text(alloc, js, "id")?;
    let force = flag(js, "force")?;
    if has_other_than(js, &["do", "space", "type", "id", "force"]) {
        return Err(LineError::Refused(InputKind::UnknownField));
    }
    Ok(Call::Delete {
        space,
        target: Target { type_name, id },
        force,
    })
}

/// A share in this space.
pub fn read_share(alloc: Global, space: Text, js: &Js) -> Result<Call, LineError>
    ensures exact { Gives result (share_in space js.now) }
    ensures few { IfOk result (λ call. HasFewObjects call) }
{
    let type_name = needed_text(alloc, js, "type")?;
    let id = needed_text(alloc, js, "id")?;
    let add = needed_texts(alloc, js, "add")?;
    let remove = needed_texts(alloc, js, "remove")?;
    let at = optional_text(alloc, js, "at")?;
    if has_other_than(js, &["do", "space", "type", "id", "add", "remove", "at"]) {
        return Err(LineError::Refused(InputKind::UnknownField));
    }
    Ok(Call::Share {
        space,
        target: Target { type_name, id },
        add,
        remove,
        at,
    })
}
