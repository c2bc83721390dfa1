//! The parts of lines: the tree of a line, its registry, its call, its raw id and its document.
ghost use Rattle.std.specs.Prelude.{◌≡◌, IfOk, true, codes};
ghost use Rattle.so_js.specs.Tree.{is_sound};
ghost use Rattle.call_words.specs.Limits.{HasFewObjects};
ghost use Rattle.call_lines.specs.Reading.{Gives, needed};
ghost use Rattle.call_lines.specs.Calls.{call_in};
ghost use Rattle.scenario.specs.Lines.{tree_of_line, registry_of, call_of, raw_in, doc_of};

use crate::members::has_other_than;
use call_lines::{LineError, read_call};
use call_words::Call;
use plain_data::Text;
use saved_doc::{Doc, DocError, from_js};
use so_js::{Js, JsError, member, parse};
use std::alloc::Global;
use type_registry::{RegError, Registry};
use wire_io::InputKind;

// How deep lists and objects may nest in a line.
const DEPTH: u32 = 64;

/// The tree of a line. `BadJson`, `TooDeep` or `Fraction`, the first of these that applies.
pub fn read_tree(alloc: Global, line: &[u8]) -> Result<Js, LineError>
    ensures value { Gives result (tree_of_line line.now) }
    ensures sound { IfOk result (λ js. is_sound js ≡ true) }
{
    match parse(alloc, line, DEPTH) {
        Ok(js) => Ok(js),
        Err(JsError::Memory) => Err(LineError::Memory),
        Err(JsError::BadJson) => Err(LineError::Refused(InputKind::BadJson)),
        Err(JsError::TooDeep) => Err(LineError::Refused(InputKind::TooDeep)),
        Err(JsError::Fraction) => Err(LineError::Refused(InputKind::Fraction)),
    }
}

/// The registry of a line, or the refusal of its reading under the same name.
pub fn read_registry(alloc: Global, js: &Js) -> Result<Registry, LineError>
    requires { is_sound js.now ≡ true }
    ensures { Gives result (registry_of js.now) }
{
    match Registry::read(alloc, js) {
        Ok(registry) => Ok(registry),
        Err(RegError::Memory) => Err(LineError::Memory),
        Err(RegError::MissingField) => Err(LineError::Refused(InputKind::MissingField)),
        Err(RegError::WrongKind) => Err(LineError::Refused(InputKind::WrongKind)),
        Err(RegError::UnknownField) => Err(LineError::Refused(InputKind::UnknownField)),
        Err(RegError::BadVersion) => Err(LineError::Refused(InputKind::BadVersion)),
        Err(RegError::BadType) => Err(LineError::Refused(InputKind::BadType)),
        Err(RegError::DuplicateType) => Err(LineError::Refused(InputKind::DuplicateType)),
        Err(RegError::BadKind) => Err(LineError::Refused(InputKind::BadKind)),
        Err(RegError::UnsortedVersions) => Err(LineError::Refused(InputKind::UnsortedVersions)),
        Err(RegError::BadOp) => Err(LineError::Refused(InputKind::BadOp)),
    }
}

/// The call of a line: the member `call`, and no other but `line`.
///
/// `MissingField` where there is no member `call`, then the refusals of reading it, and last
/// `UnknownField`.
pub fn read_call_line(alloc: Global, js: &Js) -> Result<Call, LineError>
    requires { is_sound js.now ≡ true }
    ensures exact { Gives result (call_of js.now) }
    ensures few { IfOk result (λ call. HasFewObjects call) }
{
    let call = needed_call(alloc, js)?;
    if has_other_than(js, &["line", "call"]) {
        return Err(LineError::Refused(InputKind::UnknownField));
    }
    Ok(call)
}

fn needed_call(alloc: Global, js: &Js) -> Result<Call, LineError>
    requires { is_sound js.now ≡ true }
    ensures exact { Gives result (needed call_in (codes "call") js.now) }
    ensures few { IfOk result (λ call. HasFewObjects call) }
{
    match member(js, "call") {
        Some(js) => read_call(alloc, js),
        None => Err(LineError::Refused(InputKind::MissingField)),
    }
}

/// The raw id under `raw`. `MissingField` where it is missing, `WrongKind` where it is no text,
/// and `BadId` where it is empty.
pub fn needed_raw(js: &Js) -> Result<Text, LineError>
    ensures { Gives result (needed raw_in (codes "raw") js.now) }
{
    match member(js, "raw") {
        Some(js) => read_raw(js),
        None => Err(LineError::Refused(InputKind::MissingField)),
    }
}

fn read_raw(js: &Js) -> Result<Text, LineError>
    ensures { Gives result (raw_in js.now) }
{
    let Js::Str(raw) = js else {
        return Err(LineError::Refused(InputKind::WrongKind));
    };
    if raw.is_empty() {
        return Err(LineError::Refused(InputKind::BadId));
    }
    let raw = raw.clone()?;
    Ok(raw)
}

/// The document under `doc`. `MissingField` where it is missing, and then the refusal of its
/// reading under the same name.
pub fn needed_doc(alloc: Global, js: &Js) -> Result<Doc, LineError>
    requires { is_sound js.now ≡ true }
    ensures { Gives result (needed doc_of (codes "doc") js.now) }
{
    match member(js, "doc") {
        Some(js) => read_doc(alloc, js),
        None => Err(LineError::Refused(InputKind::MissingField)),
    }
}

fn read_doc(alloc: Global, js: &Js) -> Result<Doc, LineError>
    requires { is_sound js.now ≡ true }
    ensures { Gives result (doc_of js.now) }
{
    match from_js(alloc, js) {
        Ok(doc) => Ok(doc),
        Err(DocError::Memory) => Err(LineError::Memory),
        Err(DocError::MissingField) => Err(LineError::Refused(InputKind::MissingField)),
        Err(DocError::WrongKind) => Err(LineError::Refused(InputKind::WrongKind)),
        Err(DocError::BadVersion) => Err(LineError::Refused(InputKind::BadVersion)),
        Err(DocError::BadSpace) => Err(LineError::Refused(InputKind::BadSpace)),
        Err(DocError::UnknownField) => Err(LineError::Refused(InputKind::UnknownField)),
    }
}
