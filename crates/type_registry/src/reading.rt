ghost use Rattle.std.specs.Prelude.{◌≡◌, IfOk, IfErr, true, [], Ok, codes};
ghost use Rattle.document_model.specs.Names.{is_type_name};
ghost use Rattle.document_model.specs.Registries.{type_names, names_apart};
ghost use Rattle.so_js.specs.Tree.{is_sound, member_of};
ghost use Rattle.so_js.specs.Printing.{are_sound};
ghost use Rattle.type_registry.specs.Reading.{Gives, Refuses, required, optional, or_empty, version_in, name_in, kind_in, shareable_in, migrations_in, type_in, types_after, types_in, removed_after, removed_in, removed_or_none, migrations_or_none};

use crate::error::RegError;
use crate::members::is_type_alone;
use crate::migrations::read_migrations;
use crate::texts::{read_kind, read_name, read_shareable, read_version};
use crate::types::{Listed, Migration};
use plain_data::{List, Text};
use so_js::{Js, member};
use space_scope::Kind;
use std::alloc::Global;
use version_token::Ver;

/// The version of a registry.
pub fn version_of(alloc: Global, js: &Js) -> Result<Ver, RegError>
    ensures { Gives result (required version_in (member_of (codes "version") js.now)) }
{
    match member(js, "version") {
        Some(js) => read_version(alloc, js),
        None => Err(RegError::MissingField),
    }
}

/// Types, and their names again.
#[derive(Debug, Drop)]
pub(crate) struct Types {
    pub names: List<Text>,
    pub types: List<Listed>,
}

/// The types of a registry of this version.
pub(crate) fn types_of(alloc: Global, top: Ver, js: &Js) -> Result<Types, RegError>
    requires { is_sound js.now ≡ true }
    ensures ok { IfOk result (λ t. required (types_in top) (member_of (codes "types") js.now) ≡ Ok t.types) }
    ensures err { IfErr result (λ e. Refuses e (required (types_in top) (member_of (codes "types") js.now))) }
    ensures names { IfOk result (λ t. t.names ≡ type_names t.types) }
    ensures apart { IfOk result (λ t. names_apart t.types ≡ true) }
{
    match member(js, "types") {
        Some(js) => read_types(alloc, top, js),
        None => Err(RegError::MissingField),
    }
}

fn read_types(alloc: Global, top: Ver, js: &Js) -> Result<Types, RegError>
    requires { is_sound js.now ≡ true }
    ensures ok { IfOk result (λ t. types_in top js.now ≡ Ok t.types) }
    ensures err { IfErr result (λ e. Refuses e (types_in top js.now)) }
    ensures names { IfOk result (λ t. t.names ≡ type_names t.types) }
    ensures apart { IfOk result (λ t. names_apart t.types ≡ true) }
{
    match js.as_items() {
        Some(items) => read_each(alloc, top, items),
        None => Err(RegError::WrongKind),
    }
}

fn read_each(alloc: Global, top: Ver, items: &List<Js>) -> Result<Types, RegError>
    requires { are_sound items.now ≡ true }
    ensures ok { IfOk result (λ t. types_after top [] items.now ≡ Ok t.types) }
    ensures err { IfErr result (λ e. Refuses e (types_after top [] items.now)) }
    ensures names { IfOk result (λ t. t.names ≡ type_names t.types) }
    ensures apart { IfOk result (λ t. names_apart t.types ≡ true) }
{
    let mut names = List::new(alloc);
    let mut types = List::new(alloc);
    for item in items.as_slice() {
        match read_type(alloc, top, &names, item) {
            Ok(listed) => {
                names.push(listed.name.clone()?)?;
                types.push(listed)?;
            }
            Err(error) => return Err(error),
        }
    }
    Ok(Types { names, types })
}

fn read_type(alloc: Global, top: Ver, taken: &List<Text>, js: &Js) -> Result<Listed, RegError>
    requires { is_sound js.now ≡ true }
    ensures { Gives result (type_in top taken.now js.now) }
{
    if js.as_object().is_none() {
        return Err(RegError::WrongKind);
    }
    let name = name_of(alloc, taken, js)?;
    let kind = kind_of(js)?;
    let shareable_at = shareable_of(alloc, top, kind, js)?;
    let migrations = migrations_of(alloc, top, js)?;
    if !is_type_alone(js) {
        return Err(RegError::UnknownField);
    }
    Ok(Listed {
        name,
        kind,
        shareable_at,
        migrations,
    })
}

fn name_of(alloc: Global, taken: &List<Text>, js: &Js) -> Result<Text, RegError>
    ensures exact { Gives result (required (name_in taken.now []) (member_of (codes "name") js.now)) }
    ensures named { IfOk result (λ name. is_type_name name ≡ true) }
{
    let none = List::new(alloc);
    match member(js, "name") {
        Some(js) => read_name(alloc, taken, &none, js),
        None => Err(RegError::MissingField),
    }
}

fn kind_of(js: &Js) -> Result<Kind, RegError>
    ensures { Gives result (required kind_in (member_of (codes "kind") js.now)) }
{
    match member(js, "kind") {
        Some(js) => read_kind(js),
        None => Err(RegError::MissingField),
    }
}

fn shareable_of(alloc: Global, top: Ver, kind: Kind, js: &Js) -> Result<Option<Ver>, RegError>
    ensures { Gives result (optional (shareable_in top kind) (member_of (codes "shareableAt") js.now)) }
{
    match member(js, "shareableAt") {
        Some(js) => {
            let version = read_shareable(alloc, top, kind, js)?;
            Ok(Some(version))
        }
        None => Ok(None),
    }
}

fn migrations_of(alloc: Global, top: Ver, js: &Js) -> Result<List<Migration>, RegError>
    requires { is_sound js.now ≡ true }
    ensures { Gives result (migrations_or_none top js.now) }
{
    match member(js, "migrations") {
        Some(js) => read_migrations(alloc, top, js),
        None => Ok(List::new(alloc)),
    }
}

/// The names of types that a registry removed, which are none of the names of its types.
pub fn removed_of(alloc: Global, names: &List<Text>, js: &Js) -> Result<List<Text>, RegError>
    ensures { Gives result (removed_or_none names.now js.now) }
{
    match member(js, "removed") {
        Some(js) => read_removed(alloc, names, js),
        None => Ok(List::new(alloc)),
    }
}

fn read_removed(alloc: Global, names: &List<Text>, js: &Js) -> Result<List<Text>, RegError>
    ensures { Gives result (removed_in names.now js.now) }
{
    match js.as_items() {
        Some(items) => read_each_removed(alloc, names, items),
        None => Err(RegError::WrongKind),
    }
}

fn read_each_removed(
    alloc: Global,
    names: &List<Text>,
    items: &List<Js>,
) -> Result<List<Text>, RegError>
    ensures { Gives result (removed_after names.now [] items.now) }
{
    let mut removed = List::new(alloc);
    for item in items.as_slice() {
        let name = read_name(alloc, names, &removed, item)?;
        removed.push(name)?;
    }
    Ok(removed)
}
