ghost use Rattle.std.specs.Prelude.{◌≡◌, true, codes, IfOk};
ghost use Rattle.so_js.specs.Tree.{is_sound};
ghost use Rattle.call_words.specs.Limits.{HasFewObjects};
ghost use Rattle.call_lines.specs.Reading.{Gives, needed};
ghost use Rattle.call_lines.specs.Calls.{kind_in, call_as, call_in};

use crate::creating::{read_bulk_create, read_create, read_update};
use crate::error::LineError;
use crate::finding::read_find;
use crate::members::text_or;
use crate::targets::{read_bulk_get, read_delete, read_get, read_resolve, read_share};
use call_words::Call;
use plain_data::Text;
use so_js::{Js, member};
use std::alloc::Global;
use wire_io::InputKind;

/// The kind of a call, which its member `do` names.
#[derive(Clone, Copy, Debug, PartialEq, Eq)]
pub enum CallKind {
    Create,
    BulkCreate,
    Get,
    Resolve,
    BulkGet,
    Update,
    Delete,
    Find,
    Share,
}

/// The call that the object under `call` states.
///
/// It reads `do`, then `space`, which is `default` where it is missing, then the members that a
/// call of this kind needs, and then those that it may have, each in the order of the table of
/// calls. The first of these that applies is its refusal:
/// - `WrongKind` where the tree is no object.
/// - For each of the members in turn `MissingField`, where it is needed and missing; `WrongKind`,
///   where it is of another kind, or a text that is none of the words that may stand there;
///   `BadVersion`, where a text that stands for a version is none; `BadNumber`, where `objects`
///   has more than 10,000 items. The items of a list are read in order, each as an object whose own
///   `UnknownField` comes after its members; a reference that isn't exactly the three texts `name`,
///   `type` and `id` is `WrongKind`, and so is a `migrationVersion` with a member that isn't named
///   as the type.
/// - `UnknownField` where there is another member.
///
/// Want of memory may come at any place.
pub fn read_call(alloc: Global, js: &Js) -> Result<Call, LineError>
    requires { is_sound js.now ≡ true }
    ensures exact { Gives result (call_in js.now) }
    ensures few { IfOk result (λ call. HasFewObjects call) }
{
    let Js::Object(_) = js else {
        return Err(LineError::Refused(InputKind::WrongKind));
    };
    let kind = call_kind(js)?;
    let space = text_or(alloc, js, "space", "default")?;
    read_call_as(alloc, kind, space, js)
}

fn call_kind(js: &Js) -> Result<CallKind, LineError>
    ensures { Gives result (needed kind_in (codes "do") js.now) }
{
    match member(js, "do") {
        Some(js) => read_kind(js),
        None => Err(LineError::Refused(InputKind::MissingField)),
    }
}

fn read_kind(js: &Js) -> Result<CallKind, LineError>
    ensures { Gives result (kind_in js.now) }
{
    let Js::Str(word) = js else {
        return Err(LineError::Refused(InputKind::WrongKind));
    };
    match word.as_str() {
        "create" => Ok(CallKind::Create),
        "bulkCreate" => Ok(CallKind::BulkCreate),
        "get" => Ok(CallKind::Get),
        "resolve" => Ok(CallKind::Resolve),
        "bulkGet" => Ok(CallKind::BulkGet),
        "update" => Ok(CallKind::Update),
        "delete" => Ok(CallKind::Delete),
        "find" => Ok(CallKind::Find),
        "share" => Ok(CallKind::Share),
        _ => Err(LineError::Refused(InputKind::WrongKind)),
    }
}

fn read_call_as(alloc: Global, kind: CallKind, space: Text, js: &Js) -> Result<Call, LineError>
    requires { is_sound js.now ≡ true }
    ensures exact { Gives result (call_as kind space js.now) }
    ensures few { IfOk result (λ call. HasFewObjects call) }
{
    match kind {
        CallKind::Create => read_create(alloc, space, js),
        CallKind::BulkCreate => read_bulk_create(alloc, space, js),
        CallKind::Get => read_get(alloc, space, js),
        CallKind::Resolve => read_resolve(alloc, space, js),
        CallKind::BulkGet => read_bulk_get(alloc, space, js),
        CallKind::Update => read_update(alloc, space, js),
        CallKind::Delete => read_delete(alloc, space, js),
        CallKind::Find => read_find(alloc, space, js),
        CallKind::Share => read_share(alloc, space, js),
    }
}
