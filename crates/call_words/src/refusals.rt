ghost use Rattle.std.specs.Prelude.{◌≡◌, ◌||◌, not, Bool, List, Option, IfOk, Some};
ghost use Rattle.base_model.specs.Keyed.{Text as Bytes};
ghost use Rattle.document_model.specs.Registries.{known, too_new};
ghost use Rattle.call_model.specs.Acts.{is_unknown as is_unknown_in, bad_id as bad_id_in, bad_token as bad_token_in, stamp_too_new, latest_of, is_multiple as is_multiple_in, own_words};
ghost use Rattle.call_model.specs.Calls.Act.{Create, Update, Delete, Share};
ghost use Rattle.call_model.specs.Steps.{look_words, resolve_words};
ghost use Rattle.call_words.specs.Mapped.{given_of, new_object_of, change_of};
ghost use Rattle.call_words.specs.Product.{product_words};

use crate::calls::{Change, Given, NewObject};
use crate::spaces::is_space;
use call_model::Refuse;
use document_model::is_below;
use plain_data::Text;
use query_model::Target;
use space_scope::Kind;
use std::alloc::{AllocError, Global};
use type_registry::Registry;
use version_token::{TokenError, Ver, decode};

/// The refusal of a create by its words, but for its space: `UnsupportedType` where the type isn't
/// known or is that of alias documents; then `BadId` where the id is empty or longer than 1,024
/// bytes; then `TooNew` where the given stamp is above the latest version of the type, or there is
/// none. `None` where none of these applies. Takes no memory.
#[tactic(auto, unfolding(call_model::specs::Acts::own_words))]
pub fn create_refusal(reg: &Registry, object: &NewObject) -> Option<Refuse>
    ensures { (overwrite : Bool) (time : Option Bytes) → result ≡ own_words product_words reg.now (Create (new_object_of object.now) overwrite time) }
{
    if is_unknown(reg, &object.type_name) {
        return Some(Refuse::UnsupportedType);
    }
    if is_bad_id(&object.id) {
        return Some(Refuse::BadId);
    }
    if is_stamp_too_new(reg, &object.type_name, object.given) {
        return Some(Refuse::TooNew);
    }
    None
}

/// The refusal of an update by its words, but for its space: `UnsupportedType` and `BadId` as for a
/// create, and then `BadToken` where its version is the token of no number.
#[tactic(auto, unfolding(call_model::specs::Acts::own_words))]
pub fn update_refusal(
    alloc: Global,
    reg: &Registry,
    change: &Change,
) -> Result<Option<Refuse>, AllocError>
    ensures { (time : Option Bytes) → IfOk result (λ refusal. refusal ≡ own_words product_words reg.now (Update (change_of change.now) time)) }
{
    if is_unknown(reg, &change.type_name) {
        return Ok(Some(Refuse::UnsupportedType));
    }
    if is_bad_id(&change.id) {
        return Ok(Some(Refuse::BadId));
    }
    let is_bad = is_bad_token(alloc, &change.version)?;
    if is_bad {
        return Ok(Some(Refuse::BadToken));
    }
    Ok(None)
}

/// The refusal of a delete by its words, but for its space: `UnsupportedType` and `BadId` as for a
/// create. Takes no memory.
#[tactic(auto, unfolding(call_model::specs::Acts::own_words))]
pub fn delete_refusal(reg: &Registry, target: &Target) -> Option<Refuse>
    ensures { (force : Bool) → result ≡ own_words product_words reg.now (Delete target.now force) }
{
    look_refusal(reg, target)
}

/// The refusal of a share by its words, but for its spaces: `UnsupportedType` where the type isn't
/// known, is that of alias documents, or isn't of the kind `Multiple`; then `BadId` as for a
/// create. Takes no memory.
#[tactic(auto, unfolding(call_model::specs::Acts::own_words))]
pub fn share_refusal(reg: &Registry, target: &Target) -> Option<Refuse>
    ensures { (add remove : List Bytes) (time : Option Bytes) → result ≡ own_words product_words reg.now (Share target.now add remove time) }
{
    if is_unshareable(reg, &target.type_name) {
        return Some(Refuse::UnsupportedType);
    }
    if is_bad_id(&target.id) {
        return Some(Refuse::BadId);
    }
    None
}

/// The refusal of a get, or of one object of a bulkGet, by its words but for its space:
/// `UnsupportedType` and `BadId` as for a create. Takes no memory.
pub fn look_refusal(reg: &Registry, target: &Target) -> Option<Refuse>
    ensures { result ≡ look_words reg.now target.now }
{
    if is_unknown(reg, &target.type_name) {
        return Some(Refuse::UnsupportedType);
    }
    if is_bad_id(&target.id) {
        return Some(Refuse::BadId);
    }
    None
}

/// The refusal of a resolve by its words: `BadSpace`, then `UnsupportedType` and `BadId` as for a
/// create. Takes no memory.
pub fn resolve_refusal(reg: &Registry, space: &str, target: &Target) -> Option<Refuse>
    ensures { result ≡ resolve_words reg.now space.now target.now }
{
    if !is_space(space) {
        return Some(Refuse::BadSpace);
    }
    look_refusal(reg, target)
}

/// Whether the type isn't known, or is that of alias documents. Takes no memory.
#[tactic(auto, unfolding(base_model::specs::Keyed::same))]
pub(crate) fn is_unknown(reg: &Registry, type_name: &Text) -> bool
    ensures { result ≡ is_unknown_in reg.now type_name.now }
{
    type_name.as_str() == "legacy-url-alias" || reg.kind_of(type_name.as_str()).is_none()
}

fn is_unshareable(reg: &Registry, type_name: &Text) -> bool
    ensures { result ≡ (is_unknown_in reg.now type_name.now || not (is_multiple_in (known reg.now type_name.now))) }
{
    is_unknown(reg, type_name) || !is_multiple(reg, type_name)
}

fn is_multiple(reg: &Registry, type_name: &Text) -> bool
    ensures { result ≡ is_multiple_in (known reg.now type_name.now) }
{
    matches!(reg.kind_of(type_name.as_str()), Some(Kind::Multiple))
}

fn is_bad_id(id: &Text) -> bool
    ensures { result ≡ bad_id_in id.now }
{
    id.is_empty() || id.len() > 1024
}

fn is_stamp_too_new(reg: &Registry, type_name: &Text, given: Given) -> bool
    ensures { result ≡ stamp_too_new (known reg.now type_name.now) (given_of given) }
{
    match given {
        Given::Latest | Given::All => false,
        Given::Above(version) => is_above(version, latest_version(reg, type_name)),
    }
}

fn latest_version(reg: &Registry, type_name: &Text) -> Option<Ver>
    ensures { result ≡ latest_of (known reg.now type_name.now) }
{
    reg.latest_of(type_name.as_str())
}

fn is_above(version: Ver, latest: Option<Ver>) -> bool
    ensures { result ≡ too_new (Some version) latest }
{
    match latest {
        Some(latest) => is_below(latest, version),
        None => true,
    }
}

fn is_bad_token(alloc: Global, token: &Option<Text>) -> Result<bool, AllocError>
    ensures { IfOk result (λ is_bad. is_bad ≡ bad_token_in product_words token.now) }
{
    match token {
        Some(token) => match decode(alloc, token.as_str()) {
            Ok(_) => Ok(false),
            Err(TokenError::BadToken) => Ok(true),
            Err(TokenError::Memory) => Err(AllocError),
        },
        None => Ok(false),
    }
}
