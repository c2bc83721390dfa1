ghost use Rattle.std.specs.Prelude.{◌≡◌, ◌&&◌, not, IfOk, None, false, true, option_map, if◌then◌else◌};
ghost use Rattle.std.specs.Option.{option_copied};
ghost use Rattle.document_model.specs.Registries.{known};
ghost use Rattle.space_scope.specs.Spaces.{space_text};
ghost use Rattle.doc_table.specs.Tables.{cell_of};
ghost use Rattle.call_model.specs.Acts.{judge as judge_by, created as created_by, overwriting, on_row, act_on, spaces_left, is_wide as lies_wide, added, taken_away, or_no_space, updated as updated_by, token_is, own_words, is_unknown, stamp_too_new};
ghost use Rattle.call_model.specs.Acts.Deed.{Deny, Remake, Drop as Take};
ghost use Rattle.call_model.specs.declared.refuse.Refuse.TheVariants.{Conflict, NeedsForce};
ghost use Rattle.call_words.specs.Mapped.{given_of, new_object_of, change_of};
ghost use Rattle.call_words.specs.Product.{product_words};
ghost use Rattle.object_acts.specs.Mapped.{act_of, judged_of};

use crate::acts::Act;
use crate::deeds::{Deed, Judged};
use crate::documents::{created, overwritten, respaced, updated};
use crate::sharing::{is_wide, shared};
use call_words::{Change, NewObject, Refuse, is_seen};
use plain_data::{List, Text};
use saved_doc::{Row, SharedDoc};
use space_scope::Space;
use std::alloc::{AllocError, Global};
use type_registry::Registry;
use version_token::{TokenError, decode};

/// What a change that its own words don't refuse does, in this space, by the row of its raw id.
///
/// A create without overwrite makes its document whatever row there is. With it, it takes the place
/// of a row of its type that is visible in the space, and is refused as `Conflict` by another row.
/// The others are refused as `NotFound` where there is no row of their type that is visible in the
/// space; then an update as `Conflict` where its token isn't that of the row's number, and a delete
/// without force as `NeedsForce` where the object lies in several spaces or in all. A share that
/// leaves no space takes the row out.
#[tactic(auto, unfolding(call_model::specs::Acts::judge))]
pub fn judge(
    alloc: Global,
    reg: &Registry,
    space: &Space,
    act: &Act,
    row: Option<&Row>,
) -> Result<Judged, AllocError>
    requires { own_words product_words reg.now (act_of act.now) ≡ None }
    ensures { IfOk result (λ judged. judged_of judged ≡ judge_by product_words reg.now (space_text space.now) (act_of act.now) (option_map cell_of (option_copied row.entry))) }
{
    match act {
        Act::Create {
            object,
            overwrite: true,
            at,
        } => overwrite(alloc, reg, space, object, at, row),
        Act::Create { object, at, .. } => make(alloc, reg, space, object, at),
        _ => change_row(alloc, reg, space, act, row),
    }
}

/// A create with overwrite.
fn overwrite(
    alloc: Global,
    reg: &Registry,
    space: &Space,
    object: &NewObject,
    at: &Option<Text>,
    row: Option<&Row>,
) -> Result<Judged, AllocError>
    requires known { is_unknown reg.now object.now.type_name ≡ false }
    requires stamp { stamp_too_new (known reg.now object.now.type_name) (given_of object.now.given) ≡ false }
    ensures { IfOk result (λ judged. judged_of judged ≡ overwriting reg.now (space_text space.now) true (option_map cell_of (option_copied row.entry)) (created_by product_words reg.now (space_text space.now) (new_object_of object.now) at.now)) }
{
    let Some(row) = row else {
        return make(alloc, reg, space, object, at);
    };
    if !is_seen(reg, space, object.type_name.as_str(), row.doc.get()) {
        return Ok(Judged::Denied(Refuse::Conflict));
    }
    let new = created(alloc, reg, space, object, at)?;
    let doc = overwritten(new, row.doc.get())?;
    Ok(Judged::Does(Deed::Remake {
        seen: row.seq,
        doc: SharedDoc::new(alloc, doc)?,
    }))
}

/// A create where no row counts.
fn make(
    alloc: Global,
    reg: &Registry,
    space: &Space,
    object: &NewObject,
    at: &Option<Text>,
) -> Result<Judged, AllocError>
    requires known { is_unknown reg.now object.now.type_name ≡ false }
    requires stamp { stamp_too_new (known reg.now object.now.type_name) (given_of object.now.given) ≡ false }
    ensures { IfOk result (λ judged. judged_of judged ≡ overwriting reg.now (space_text space.now) true None (created_by product_words reg.now (space_text space.now) (new_object_of object.now) at.now)) }
{
    let doc = created(alloc, reg, space, object, at)?;
    Ok(Judged::Does(Deed::Make(SharedDoc::new(alloc, doc)?)))
}

/// A change of an object, which needs a row of its type that is visible in the space.
fn change_row(
    alloc: Global,
    reg: &Registry,
    space: &Space,
    act: &Act,
    row: Option<&Row>,
) -> Result<Judged, AllocError>
    ensures { IfOk result (λ judged. judged_of judged ≡ on_row product_words reg.now (space_text space.now) (act_of act.now) (option_map cell_of (option_copied row.entry))) }
{
    let Some(row) = row else {
        return Ok(Judged::Denied(Refuse::NotFound));
    };
    if !is_seen(reg, space, act.type_name(), row.doc.get()) {
        return Ok(Judged::Denied(Refuse::NotFound));
    }
    change_seen(alloc, act, row)
}

/// A change of an object that is there.
fn change_seen(alloc: Global, act: &Act, row: &Row) -> Result<Judged, AllocError>
    ensures { IfOk result (λ judged. judged_of judged ≡ act_on product_words (act_of act.now) row.now.seq row.now.doc) }
{
    match act {
        Act::Create { .. } => Ok(Judged::Denied(Refuse::Conflict)),
        Act::Update { change, at } => update(alloc, change, at, row),
        Act::Delete { force, .. } => Ok(delete(*force, row)),
        Act::Share {
            add,
            remove,
            at,
            ..
        } => share(alloc, add, remove, at, row),
    }
}

fn update(
    alloc: Global,
    change: &Change,
    at: &Option<Text>,
    row: &Row,
) -> Result<Judged, AllocError>
    ensures { IfOk result (λ judged. judged_of judged ≡ (if token_is product_words change.now.version row.now.seq then Remake row.now.seq (updated_by product_words (change_of change.now) at.now row.now.doc) else Deny Conflict)) }
{
    if !stands_for(alloc, &change.version, row.seq)? {
        return Ok(Judged::Denied(Refuse::Conflict));
    }
    let doc = updated(alloc, change, at, row.doc.get())?;
    Ok(Judged::Does(Deed::Remake {
        seen: row.seq,
        doc: SharedDoc::new(alloc, doc)?,
    }))
}

fn delete(force: bool, row: &Row) -> Judged
    ensures { judged_of result ≡ (if lies_wide row.now.doc.namespaces && not force then Deny NeedsForce else Take row.now.seq) }
{
    let doc = row.doc.get();
    if is_wide(&doc.namespaces) && !force {
        return Judged::Denied(Refuse::NeedsForce);
    }
    Judged::Does(Deed::Drop { seen: row.seq })
}

fn share(
    alloc: Global,
    add: &List<Text>,
    remove: &List<Text>,
    at: &Option<Text>,
    row: &Row,
) -> Result<Judged, AllocError>
    ensures { IfOk result (λ judged. judged_of judged ≡ spaces_left row.now.seq row.now.doc at.now (taken_away remove.now (added add.now (or_no_space row.now.doc.namespaces)))) }
{
    let doc = row.doc.get();
    let left = shared(alloc, add, remove, &doc.namespaces)?;
    if left.is_empty() {
        return Ok(Judged::Does(Deed::Drop { seen: row.seq }));
    }
    let doc = respaced(left, at, doc)?;
    Ok(Judged::Does(Deed::Remake {
        seen: row.seq,
        doc: SharedDoc::new(alloc, doc)?,
    }))
}

/// Whether the token, where there is one, is that of this number.
fn stands_for(alloc: Global, token: &Option<Text>, number: u64) -> Result<bool, AllocError>
    ensures { IfOk result (λ is. is ≡ token_is product_words token.now number) }
{
    let Some(token) = token else {
        return Ok(true);
    };
    match decode(alloc, token.as_str()) {
        Ok(known) => Ok(known == number),
        Err(TokenError::BadToken) => Ok(false),
        Err(TokenError::Memory) => Err(AllocError),
    }
}
