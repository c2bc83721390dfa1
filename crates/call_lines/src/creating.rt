//! Calls that write attributes: create, bulkCreate and update.
ghost use Rattle.std.specs.Prelude.{◌≡◌, ◌≤◌, true, codes, length, IfOk};
ghost use Rattle.so_js.specs.Printing.{are_sound};
ghost use Rattle.so_js.specs.Tree.{is_sound};
ghost use Rattle.call_words.specs.Limits.{HasFewObjects};
ghost use Rattle.call_lines.specs.Reading.{Gives, each, optional, has_other};
ghost use Rattle.call_lines.specs.Parts.{version_in, version_map_in};
ghost use Rattle.call_lines.specs.Calls.{objects_of, given_over, given_of, new_object_keys, new_object_in, create_keys, create_in, bulk_create_in, update_keys, update_in};

use crate::error::LineError;
use crate::members::{
    flag, has_other_than, needed_attributes, needed_objects, needed_text, optional_references,
    optional_text, references,
};
use crate::parts::{read_version, read_version_map};
use call_words::{Call, Change, Given, NewObject};
use plain_data::{List, Text};
use so_js::{Js, member};
use std::alloc::Global;
use version_token::Ver;
use wire_io::InputKind;

/// The version under `typeMigrationVersion`, if it is there.
fn newer_stamp(alloc: Global, js: &Js) -> Result<Option<Ver>, LineError>
    ensures { Gives result (optional version_in (codes "typeMigrationVersion") js.now) }
{
    match member(js, "typeMigrationVersion") {
        Some(js) => {
            let version = read_version(alloc, js)?;
            Ok(Some(version))
        }
        None => Ok(None),
    }
}

/// The map under `migrationVersion`, if it is there: its version, if it has one.
fn older_stamp(alloc: Global, type_name: &str, js: &Js) -> Result<Option<Option<Ver>>, LineError>
    ensures { Gives result (optional (version_map_in type_name.now) (codes "migrationVersion") js.now) }
{
    match member(js, "migrationVersion") {
        Some(js) => {
            let version = read_version_map(alloc, type_name, js)?;
            Ok(Some(version))
        }
        None => Ok(None),
    }
}

/// The newer form of a stamp counts.
fn given_by(newer: Option<Ver>, older: Option<Option<Ver>>) -> Given
    ensures { result ≡ given_over newer older }
{
    match (newer, older) {
        (Some(version), _) => Given::Above(version),
        (None, None) => Given::Latest,
        (None, Some(None)) => Given::All,
        (None, Some(Some(version))) => Given::Above(version),
    }
}

/// The stamp that an object of this type comes with. `BadVersion` where a text that stands for a
/// version is none.
fn given(alloc: Global, type_name: &str, js: &Js) -> Result<Given, LineError>
    ensures { Gives result (given_of type_name.now js.now) }
{
    let newer = newer_stamp(alloc, js)?;
    let older = older_stamp(alloc, type_name, js)?;
    Ok(given_by(newer, older))
}

/// Whether the object has a member that an object of a bulkCreate has not.
fn has_other_than_new_object(js: &Js) -> bool
    ensures { result ≡ has_other new_object_keys js.now }
{
    has_other_than(
        js,
        &[
            "type",
            "id",
            "attributes",
            "references",
            "typeMigrationVersion",
            "migrationVersion",
            "originId",
        ],
    )
}

/// An object of a bulkCreate.
fn read_new_object(alloc: Global, js: &Js) -> Result<NewObject, LineError>
    requires { is_sound js.now ≡ true }
    ensures { Gives result (new_object_in js.now) }
{
    let Js::Object(_) = js else {
        return Err(LineError::Refused(InputKind::WrongKind));
    };
    let type_name = needed_text(alloc, js, "type")?;
    let id = needed_text(alloc, js, "id")?;
    let attributes = needed_attributes(js)?;
    let references = references(alloc, js)?;
    let given = given(alloc, type_name.as_str(), js)?;
    let origin = optional_text(alloc, js, "originId")?;
    if has_other_than_new_object(js) {
        return Err(LineError::Refused(InputKind::UnknownField));
    }
    Ok(NewObject {
        type_name,
        id,
        attributes,
        references,
        given,
        origin,
    })
}

fn read_each_new_object(alloc: Global, items: &List<Js>) -> Result<List<NewObject>, LineError>
    requires { are_sound items.now ≡ true }
    ensures exact { Gives result (each new_object_in items.now) }
    ensures counts { IfOk result (λ objects. length objects ≡ length items.now) }
{
    let mut all = List::new(alloc);
    for item in items.as_slice() {
        all.push(read_new_object(alloc, item)?)?;
    }
    Ok(all)
}

fn read_new_objects(alloc: Global, js: &Js) -> Result<List<NewObject>, LineError>
    requires { is_sound js.now ≡ true }
    ensures exact { Gives result (objects_of new_object_in js.now) }
    ensures few { IfOk result (λ objects. length objects ≤ 10000) }
{
    read_each_new_object(alloc, needed_objects(js)?)
}

/// Whether the object has a member that a create has not.
fn has_other_than_create(js: &Js) -> bool
    ensures { result ≡ has_other create_keys js.now }
{
    has_other_than(
        js,
        &[
            "do",
            "space",
            "type",
            "id",
            "attributes",
            "references",
            "overwrite",
            "typeMigrationVersion",
            "migrationVersion",
            "originId",
            "at",
        ],
    )
}

/// A create in this space.
pub fn read_create(alloc: Global, space: Text, js: &Js) -> Result<Call, LineError>
    requires { is_sound js.now ≡ true }
    ensures exact { Gives result (create_in space js.now) }
    ensures few { IfOk result (λ call. HasFewObjects call) }
{
    let type_name = needed_text(alloc, js, "type")?;
    let id = needed_text(alloc, js, "id")?;
    let attributes = needed_attributes(js)?;
    let references = references(alloc, js)?;
    let overwrite = flag(js, "overwrite")?;
    let given = given(alloc, type_name.as_str(), js)?;
    let origin = optional_text(alloc, js, "originId")?;
    let at = optional_text(alloc, js, "at")?;
    if has_other_than_create(js) {
        return Err(LineError::Refused(InputKind::UnknownField));
    }
    Ok(Call::Create {
        space,
        object: NewObject {
            type_name,
            id,
            attributes,
            references,
            given,
            origin,
        },
        overwrite,
        at,
    })
}

/// A bulkCreate in this space.
pub fn read_bulk_create(alloc: Global, space: Text, js: &Js) -> Result<Call, LineError>
    requires { is_sound js.now ≡ true }
    ensures exact { Gives result (bulk_create_in space js.now) }
    ensures few { IfOk result (λ call. HasFewObjects call) }
{
    let objects = read_new_objects(alloc, js)?;
    let overwrite = flag(js, "overwrite")?;
    let at = optional_text(alloc, js, "at")?;
    if has_other_than(js, &["do", "space", "objects", "overwrite", "at"]) {
        return Err(LineError::Refused(InputKind::UnknownField));
    }
    Ok(Call::BulkCreate {
        space,
        objects,
        overwrite,
        at,
    })
}

/// Whether the object has a member that an update has not.
fn has_other_than_update(js: &Js) -> bool
    ensures { result ≡ has_other update_keys js.now }
{
    has_other_than(
        js,
        &[
            "do",
            "space",
            "type",
            "id",
            "attributes",
            "references",
            "version",
            "at",
        ],
    )
}

/// An update in this space.
pub fn read_update(alloc: Global, space: Text, js: &Js) -> Result<Call, LineError>
    requires { is_sound js.now ≡ true }
    ensures exact { Gives result (update_in space js.now) }
    ensures few { IfOk result (λ call. HasFewObjects call) }
{
    let type_name = needed_text(alloc, js, "type")?;
    let id = needed_text(alloc, js, "id")?;
    let attributes = needed_attributes(js)?;
    let references = optional_references(alloc, js)?;
    let version = optional_text(alloc, js, "version")?;
    let at = optional_text(alloc, js, "at")?;
    if has_other_than_update(js) {
        return Err(LineError::Refused(InputKind::UnknownField));
    }
    Ok(Call::Update {
        space,
        change: Change {
            type_name,
            id,
            attributes,
            references,
            version,
        },
        at,
    })
}
