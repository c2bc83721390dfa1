//! The members of an object by their keys: needed ones, whose lack is `MissingField`, optional
//! ones, and those with a value where they are missing. A member of another kind is `WrongKind`.
ghost use Rattle.std.specs.Prelude.{◌≡◌, ◌≤◌, true, false, not, [], codes, length, IfOk};
ghost use Rattle.std.specs.List.{list_any};
ghost use Rattle.std.specs.Str.{bytes_eq};
ghost use Rattle.std.specs.Result.{result_map_both};
ghost use Rattle.so_js.specs.Printing.{are_sound};
ghost use Rattle.so_js.specs.Tree.{is_sound, members_in};
ghost use Rattle.call_lines.specs.Reading.{Gives, needed, optional, defaulted};
ghost use Rattle.call_lines.specs.Parts.{flag_in, number_in, text_in, texts_in, object_in, limited_in, references_in};

use crate::error::LineError;
use crate::parts::{
    read_attributes, read_flag, read_number, read_references, read_text, read_texts,
};
use call_words::Attributes;
use document_model::Ref;
use plain_data::{List, Text};
use so_js::{Js, Member, member};
use std::alloc::Global;
use wire_io::InputKind;

/// The flag under this key, `false` where it is missing.
pub fn flag(js: &Js, key: &str) -> Result<bool, LineError>
    ensures { Gives result (defaulted false flag_in key.now js.now) }
{
    match member(js, key) {
        Some(js) => read_flag(js),
        None => Ok(false),
    }
}

/// The whole number from 0 to 2^64 - 1 under this key, `missing` where there is none.
pub fn number_or(js: &Js, key: &str, missing: u64) -> Result<u64, LineError>
    ensures { Gives result (defaulted missing number_in key.now js.now) }
{
    match member(js, key) {
        Some(js) => read_number(js),
        None => Ok(missing),
    }
}

/// The text under this key, which has to be there.
pub fn needed_text(alloc: Global, js: &Js, key: &str) -> Result<Text, LineError>
    ensures { Gives result (needed text_in key.now js.now) }
{
    match member(js, key) {
        Some(js) => read_text(alloc, js),
        None => Err(LineError::Refused(InputKind::MissingField)),
    }
}

/// The text under this key, if it is there.
pub fn optional_text(alloc: Global, js: &Js, key: &str) -> Result<Option<Text>, LineError>
    ensures { Gives result (optional text_in key.now js.now) }
{
    match member(js, key) {
        Some(js) => {
            let text = read_text(alloc, js)?;
            Ok(Some(text))
        }
        None => Ok(None),
    }
}

/// The text under this key, `missing` where there is none.
pub fn text_or(alloc: Global, js: &Js, key: &str, missing: &str) -> Result<Text, LineError>
    ensures { Gives result (defaulted missing.now text_in key.now js.now) }
{
    match member(js, key) {
        Some(js) => read_text(alloc, js),
        None => {
            let text = Text::from_str(alloc, missing)?;
            Ok(text)
        }
    }
}

/// The list of texts under this key, which has to be there.
pub fn needed_texts(alloc: Global, js: &Js, key: &str) -> Result<List<Text>, LineError>
    ensures { Gives result (needed texts_in key.now js.now) }
{
    match member(js, key) {
        Some(js) => read_texts(alloc, js),
        None => Err(LineError::Refused(InputKind::MissingField)),
    }
}

/// The object `attributes`, which has to be there.
pub fn needed_attributes(js: &Js) -> Result<Attributes, LineError>
    requires { is_sound js.now ≡ true }
    ensures { Gives result (needed object_in (codes "attributes") js.now) }
{
    match member(js, "attributes") {
        Some(js) => read_attributes(js),
        None => Err(LineError::Refused(InputKind::MissingField)),
    }
}

/// The list `references`, if it is there.
pub fn optional_references(alloc: Global, js: &Js) -> Result<Option<List<Ref>>, LineError>
    ensures { Gives result (optional references_in (codes "references") js.now) }
{
    match member(js, "references") {
        Some(js) => {
            let references = read_references(alloc, js)?;
            Ok(Some(references))
        }
        None => Ok(None),
    }
}

/// The list `references`, empty where it is missing.
pub fn references(alloc: Global, js: &Js) -> Result<List<Ref>, LineError>
    ensures { Gives result (defaulted [] references_in (codes "references") js.now) }
{
    match member(js, "references") {
        Some(js) => read_references(alloc, js),
        None => Ok(List::new(alloc)),
    }
}

/// The list `objects`, which has to be there. `BadNumber` where it has more than 10,000 items.
pub fn needed_objects(js: &Js) -> Result<&List<Js>, InputKind>
    ensures value { result_map_both (λ items. items.now) (λ e. e) result ≡ needed limited_in (codes "objects") js.now }
    ensures sound { is_sound js.now ≡ true → IfOk result (λ items. are_sound items.now ≡ true) }
    ensures few { IfOk result (λ items. length items.now ≤ 10000) }
{
    match member(js, "objects") {
        Some(js) => limited(js),
        None => Err(InputKind::MissingField),
    }
}

fn limited(js: &Js) -> Result<&List<Js>, InputKind>
    ensures value { result_map_both (λ items. items.now) (λ e. e) result ≡ limited_in js.now }
    ensures sound { is_sound js.now ≡ true → IfOk result (λ items. are_sound items.now ≡ true) }
    ensures few { IfOk result (λ items. length items.now ≤ 10000) }
{
    let Some(items) = js.as_items() else {
        return Err(InputKind::WrongKind);
    };
    if items.len() > 10_000 {
        return Err(InputKind::BadNumber);
    }
    Ok(items)
}

/// Whether the object has a member of none of these keys.
pub fn has_other_than(js: &Js, keys: &[&str]) -> bool
    ensures { result ≡ list_any (λ m. not (list_any (λ k. bytes_eq k.now m.key) keys.now)) (members_in js.now) }
{
    match js {
        Js::Object(members) => is_any_other(members, keys),
        _ => false,
    }
}

fn is_any_other(members: &List<Member>, keys: &[&str]) -> bool
    ensures { result ≡ list_any (λ m. not (list_any (λ k. bytes_eq k.now m.key) keys.now)) members.now }
{
    for m in members.as_slice() {
        if !is_among(m.key.as_str(), keys) {
            return true;
        }
    }
    false
}

fn is_among(key: &str, keys: &[&str]) -> bool
    ensures { result ≡ list_any (λ k. bytes_eq k.now key.now) keys.now }
{
    keys.iter().any(|k| *k == key)
}
