ghost use Rattle.std.specs.Prelude.{◌≡◌, IfOk, true};
ghost use Rattle.document_model.specs.Names.{is_type_name as is_name_of_type};
ghost use Rattle.saved_doc.specs.Reading.{Gives, text_in, version_in, type_name_in, ref_in, refs_in, space_id_in, is_listed_space, listed_space_in, spaces_in, old_stamp_in};
ghost use Rattle.std.specs.Str.{bytes_eq};

use crate::error::DocError;
use document_model::{Ref, is_type_name};
use plain_data::{List, Text};
use so_js::{Js, Member};
use space_scope::{SpaceError, SpaceId, is_space_id};
use std::alloc::Global;
use version_token::Ver;

/// A text, copied.
pub fn read_text(alloc: Global, js: &Js) -> Result<Text, DocError>
    ensures { Gives result (text_in js.now) }
{
    match js {
        Js::Str(text) => {
            let text = Text::from_str(alloc, text.as_str())?;
            Ok(text)
        }
        _ => Err(DocError::WrongKind),
    }
}

/// A text that is a type name.
pub fn read_type_name(alloc: Global, js: &Js) -> Result<Text, DocError>
    ensures exact { Gives result (type_name_in js.now) }
    ensures name { IfOk result (λ text. is_name_of_type text ≡ true) }
{
    match js {
        Js::Str(text) if is_type_name(text.as_str()) => {
            let text = Text::from_str(alloc, text.as_str())?;
            Ok(text)
        }
        _ => Err(DocError::WrongKind),
    }
}

/// A text that is a version.
pub fn read_version(alloc: Global, js: &Js) -> Result<Ver, DocError>
    ensures { Gives result (version_in js.now) }
{
    match js {
        Js::Str(text) => match Ver::parse(alloc, text.as_str()) {
            Some(version) => Ok(version),
            None => Err(DocError::BadVersion),
        },
        _ => Err(DocError::WrongKind),
    }
}

/// The id of a space that isn't the default one.
pub fn read_space_id(alloc: Global, js: &Js) -> Result<SpaceId, DocError>
    ensures { Gives result (space_id_in js.now) }
{
    match js {
        Js::Str(text) => match SpaceId::new(alloc, text.as_str()) {
            Ok(id) => Ok(id),
            Err(SpaceError::Memory) => Err(DocError::Memory),
            Err(SpaceError::BadSpace) => Err(DocError::BadSpace),
        },
        _ => Err(DocError::WrongKind),
    }
}

/// A list of references.
pub fn read_references(alloc: Global, js: &Js) -> Result<List<Ref>, DocError>
    ensures { Gives result (refs_in js.now) }
{
    let Js::Items(items) = js else {
        return Err(DocError::WrongKind);
    };
    let mut all = List::new(alloc);
    for item in items.as_slice() {
        all.push(read_reference(alloc, item)?)?;
    }
    Ok(all)
}

fn read_reference(alloc: Global, js: &Js) -> Result<Ref, DocError>
    ensures { Gives result (ref_in js.now) }
{
    let Js::Object(members) = js else {
        return Err(DocError::WrongKind);
    };
    match members.as_slice() {
        [id, name, type_name]
            if is_named(id, "id") && is_named(name, "name") && is_named(type_name, "type") => {
            let id = read_text(alloc, &id.value)?;
            let name = read_text(alloc, &name.value)?;
            let type_name = read_text(alloc, &type_name.value)?;
            Ok(Ref {
                name,
                type_name,
                id,
            })
        }
        _ => Err(DocError::WrongKind),
    }
}

fn is_named(member: &Member, key: &str) -> bool
    ensures { result ≡ bytes_eq member.now.key key.now }
{
    member.key.as_str() == key
}

/// A list of spaces that isn't empty.
pub fn read_spaces(alloc: Global, js: &Js) -> Result<List<Text>, DocError>
    ensures { Gives result (spaces_in js.now) }
{
    let Js::Items(items) = js else {
        return Err(DocError::WrongKind);
    };
    if items.is_empty() {
        return Err(DocError::WrongKind);
    }
    let mut all = List::new(alloc);
    for item in items.as_slice() {
        all.push(read_listed_space(alloc, item)?)?;
    }
    Ok(all)
}

fn read_listed_space(alloc: Global, js: &Js) -> Result<Text, DocError>
    ensures { Gives result (listed_space_in js.now) }
{
    let text = read_text(alloc, js)?;
    if may_be_listed(text.as_str()) {
        Ok(text)
    } else {
        Err(DocError::BadSpace)
    }
}

fn may_be_listed(text: &str) -> bool
    ensures { result ≡ is_listed_space text.now }
{
    is_space_id(text) || text == "default" || text == "*"
}

/// A map from the document's type alone to a version, or an empty one.
pub fn read_old_stamp(alloc: Global, type_name: &str, js: &Js) -> Result<Option<Ver>, DocError>
    ensures { Gives result (old_stamp_in type_name.now js.now) }
{
    let Js::Object(members) = js else {
        return Err(DocError::WrongKind);
    };
    match members.as_slice() {
        [] => Ok(None),
        [member] if is_named(member, type_name) => {
            let version = read_version(alloc, &member.value)?;
            Ok(Some(version))
        }
        _ => Err(DocError::WrongKind),
    }
}
