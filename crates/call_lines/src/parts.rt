//! The kinds of members that calls have: each function reads a tree as one of them, and refuses
//! another tree as `WrongKind`.
ghost use Rattle.std.specs.Prelude.{◌≡◌, true};
ghost use Rattle.std.specs.Str.{bytes_eq};
ghost use Rattle.so_js.specs.Tree.{is_sound};
ghost use Rattle.call_lines.specs.Reading.{Gives};
ghost use Rattle.call_lines.specs.Parts.{flag_in, number_in, text_in, texts_in, object_in, reference_in, references_in, version_in, version_map_in};

use crate::error::LineError;
use call_words::Attributes;
use document_model::Ref;
use plain_data::{List, Text};
use so_js::{Js, Member};
use std::alloc::Global;
use version_token::Ver;
use wire_io::InputKind;

/// `true` or `false`.
pub fn read_flag(js: &Js) -> Result<bool, LineError>
    ensures { Gives result (flag_in js.now) }
{
    match js {
        Js::Bool(flag) => Ok(*flag),
        _ => Err(LineError::Refused(InputKind::WrongKind)),
    }
}

/// A whole number from 0 to 2^64 - 1.
pub fn read_number(js: &Js) -> Result<u64, LineError>
    ensures { Gives result (number_in js.now) }
{
    let Js::Whole(whole) = js else {
        return Err(LineError::Refused(InputKind::WrongKind));
    };
    match u64::try_from(*whole) {
        Ok(number) => Ok(number),
        Err(_) => Err(LineError::Refused(InputKind::WrongKind)),
    }
}

/// A text, copied.
pub fn read_text(alloc: Global, js: &Js) -> Result<Text, LineError>
    ensures { Gives result (text_in js.now) }
{
    match js {
        Js::Str(text) => {
            let text = Text::from_str(alloc, text.as_str())?;
            Ok(text)
        }
        _ => Err(LineError::Refused(InputKind::WrongKind)),
    }
}

/// A list of texts.
pub fn read_texts(alloc: Global, js: &Js) -> Result<List<Text>, LineError>
    ensures { Gives result (texts_in js.now) }
{
    let Js::Items(items) = js else {
        return Err(LineError::Refused(InputKind::WrongKind));
    };
    let mut all = List::new(alloc);
    for item in items.as_slice() {
        all.push(read_text(alloc, item)?)?;
    }
    Ok(all)
}

/// An object, copied.
pub fn read_attributes(js: &Js) -> Result<Attributes, LineError>
    requires { is_sound js.now ≡ true }
    ensures { Gives result (object_in js.now) }
{
    match js {
        Js::Object(_) => {
            let copy = js.clone()?;
            Ok(Attributes::new(copy))
        }
        _ => Err(LineError::Refused(InputKind::WrongKind)),
    }
}

/// A list of references.
pub fn read_references(alloc: Global, js: &Js) -> Result<List<Ref>, LineError>
    ensures { Gives result (references_in js.now) }
{
    let Js::Items(items) = js else {
        return Err(LineError::Refused(InputKind::WrongKind));
    };
    let mut all = List::new(alloc);
    for item in items.as_slice() {
        all.push(read_reference(alloc, item)?)?;
    }
    Ok(all)
}

/// An object of exactly the texts `id`, `name` and `type`.
fn read_reference(alloc: Global, js: &Js) -> Result<Ref, LineError>
    ensures { Gives result (reference_in js.now) }
{
    let Js::Object(members) = js else {
        return Err(LineError::Refused(InputKind::WrongKind));
    };
    match members.as_slice() {
        [id, name, type_name]
            if is_named(id, "id") && is_named(name, "name") && is_named(type_name, "type") => {
            let id = read_text(alloc, &id.value)?;
            let name = read_text(alloc, &name.value)?;
            let type_name = read_text(alloc, &type_name.value)?;
            Ok(Ref {
                name,
                type_name,
                id,
            })
        }
        _ => Err(LineError::Refused(InputKind::WrongKind)),
    }
}

fn is_named(member: &Member, key: &str) -> bool
    ensures { result ≡ bytes_eq member.now.key key.now }
{
    member.key.as_str() == key
}

/// A text that is a version. `BadVersion` where the text is none.
pub fn read_version(alloc: Global, js: &Js) -> Result<Ver, LineError>
    ensures { Gives result (version_in js.now) }
{
    let Js::Str(text) = js else {
        return Err(LineError::Refused(InputKind::WrongKind));
    };
    match Ver::parse(alloc, text.as_str()) {
        Some(version) => Ok(version),
        None => Err(LineError::Refused(InputKind::BadVersion)),
    }
}

/// A map from this type alone to a version, or an empty one. `BadVersion` where the text is no
/// version.
pub fn read_version_map(alloc: Global, type_name: &str, js: &Js) -> Result<Option<Ver>, LineError>
    ensures { Gives result (version_map_in type_name.now js.now) }
{
    let Js::Object(members) = js else {
        return Err(LineError::Refused(InputKind::WrongKind));
    };
    match members.as_slice() {
        [] => Ok(None),
        [member] if is_named(member, type_name) => {
            let version = read_version(alloc, &member.value)?;
            Ok(Some(version))
        }
        _ => Err(LineError::Refused(InputKind::WrongKind)),
    }
}
