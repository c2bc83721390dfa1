ghost use Rattle.std.specs.Prelude.{◌≡◌, IfOk, IfSome, true};
ghost use Rattle.document_model.specs.Documents.{lists as is_listed};
ghost use Rattle.document_model.specs.Names.{is_type_name as is_name_of_type};
ghost use Rattle.type_registry.specs.Reading.{Gives, version_in, version_up_to, next_version, name_in, is_free, kind_named, kind_in, is_multiple, shareable_in};

use crate::error::RegError;
use document_model::{is_below, is_missing_or_below, is_type_name};
use plain_data::{List, Text};
use so_js::Js;
use space_scope::Kind;
use std::alloc::Global;
use version_token::Ver;

/// A text that is a version.
pub fn read_version(alloc: Global, js: &Js) -> Result<Ver, RegError>
    ensures { Gives result (version_in js.now) }
{
    let Some(text) = js.as_text() else {
        return Err(RegError::WrongKind);
    };
    match Ver::parse(alloc, text.as_str()) {
        Some(version) => Ok(version),
        None => Err(RegError::BadVersion),
    }
}

/// A version that isn't above `top`.
pub fn read_version_up_to(alloc: Global, top: Ver, js: &Js) -> Result<Ver, RegError>
    ensures { Gives result (version_up_to top js.now) }
{
    let version = read_version(alloc, js)?;
    if is_below(top, version) {
        return Err(RegError::BadVersion);
    }
    Ok(version)
}

/// A version above the last one that isn't above `top`.
pub fn read_next_version(
    alloc: Global,
    top: Ver,
    last: Option<Ver>,
    js: &Js,
) -> Result<Ver, RegError>
    ensures { Gives result (next_version top last js.now) }
{
    let version = read_version_up_to(alloc, top, js)?;
    if !is_missing_or_below(last, version) {
        return Err(RegError::UnsortedVersions);
    }
    Ok(version)
}

/// A type name that stands in neither list, and isn't that of alias documents.
pub fn read_name(
    alloc: Global,
    taken: &List<Text>,
    more: &List<Text>,
    js: &Js,
) -> Result<Text, RegError>
    ensures exact { Gives result (name_in taken.now more.now js.now) }
    ensures named { IfOk result (λ name. is_name_of_type name ≡ true) }
{
    let Some(text) = js.as_text() else {
        return Err(RegError::WrongKind);
    };
    if !is_type_name(text.as_str()) {
        return Err(RegError::BadType);
    }
    if !is_free_name(taken, more, text.as_str()) {
        return Err(RegError::DuplicateType);
    }
    let name = text.clone()?;
    Ok(name)
}

#[tactic(auto, unfolding(base_model::specs::Keyed::same))]
fn is_free_name(taken: &List<Text>, more: &List<Text>, name: &str) -> bool
    ensures { result ≡ is_free taken.now more.now name.now }
{
    name != "legacy-url-alias" && !lists(taken, name) && !lists(more, name)
}

/// Whether the text stands in the list.
#[tactic(auto, unfolding(document_model::specs::Documents::lists, base_model::specs::Keyed::same))]
pub fn lists(texts: &List<Text>, text: &str) -> bool
    ensures { result ≡ is_listed text.now texts.now }
{
    for other in texts.as_slice() {
        if text == other.as_str() {
            return true;
        }
    }
    false
}

/// The kind that a text names.
pub fn read_kind(js: &Js) -> Result<Kind, RegError>
    ensures { Gives result (kind_in js.now) }
{
    let Some(text) = js.as_text() else {
        return Err(RegError::WrongKind);
    };
    match kind_of(text.as_str()) {
        Some(kind) => Ok(kind),
        None => Err(RegError::BadKind),
    }
}

fn kind_of(text: &str) -> Option<Kind>
    ensures { result ≡ kind_named text.now }
{
    match text {
        "single" => Some(Kind::Single),
        "multiple" => Some(Kind::Multiple),
        "multiple-isolated" => Some(Kind::MultipleIsolated),
        "agnostic" => Some(Kind::Agnostic),
        _ => None,
    }
}

/// The version at which the objects of a type of this kind became shareable.
pub fn read_shareable(alloc: Global, top: Ver, kind: Kind, js: &Js) -> Result<Ver, RegError>
    ensures { Gives result (shareable_in top kind js.now) }
{
    let version = read_version_up_to(alloc, top, js)?;
    if !lies_in_several(kind) {
        return Err(RegError::BadKind);
    }
    Ok(version)
}

fn lies_in_several(kind: Kind) -> bool
    ensures { result ≡ is_multiple kind }
{
    matches!(kind, Kind::Multiple | Kind::MultipleIsolated)
}
