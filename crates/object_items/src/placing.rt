ghost use Rattle.std.specs.Prelude.{◌≡◌, [], ◌∷◌, ◌++◌, IfOk, map, None};
ghost use Rattle.space_scope.specs.Spaces.{space_text};
ghost use Rattle.call_model.specs.Acts.{own_words, raw_of as raw_in, target_of};
ghost use Rattle.call_model.specs.Steps.{turns as turns_of, turn_over};
ghost use Rattle.call_model.specs.Plans.{raws_of as raws_to_judge, all_blind as are_blind};
ghost use Rattle.document_model.specs.Documents.{lists};
ghost use Rattle.call_words.specs.Product.{product_words};
ghost use Rattle.object_acts.specs.Mapped.{act_of};
ghost use Rattle.object_items.specs.Mapped.{turn_of};
ghost use Rattle.object_items.specs.Turning.{turn_after, taken_by, AreSame};

use crate::taken::Taken;
use call_words::{Refuse, create_refusal, delete_refusal, raw_of, share_refusal, update_refusal};
use object_acts::Act;
use plain_data::{List, Text};
use space_scope::Space;
use std::alloc::{AllocError, Global};
use type_registry::Registry;

/// An item of a call that writes.
#[derive(Debug, Drop)]
pub enum Turn {
    /// Its own words refuse it, or an earlier item has its raw id.
    Denied(Refuse),
    /// It is left to judge, by the row of its raw id.
    Goes { raw: Text, act: Act },
}

/// The items of a call that writes, in their order: each refused by its own words; or refused as
/// `Conflict`, where an earlier item that its own words don't refuse has its raw id; or left to
/// judge.
#[tactic(auto, unfolding(call_model::specs::Steps::turns))]
pub fn turns(
    alloc: Global,
    reg: &Registry,
    space: &Space,
    acts: List<Act>,
) -> Result<List<Turn>, AllocError>
    ensures { IfOk result (λ turns. map turn_of turns ≡ turns_of product_words reg.now (space_text space.now) [] (map act_of acts)) }
{
    let mut turns = List::new(alloc);
    let mut taken = Taken::new(alloc);
    for act in acts.into_vec() {
        turns.push(next_turn(alloc, reg, space, &mut taken, act)?)?;
    }
    Ok(turns)
}

/// An item after those whose raw ids are taken. One that its own words don't refuse takes its own.
fn next_turn(
    alloc: Global,
    reg: &Registry,
    space: &Space,
    taken: &mut Taken,
    act: Act,
) -> Result<Turn, AllocError>
    ensures turn { IfOk result (λ turn. turn_of turn ≡ turn_after reg.now (space_text space.now) taken.old (act_of act)) }
    ensures taken { IfOk result (λ _. AreSame taken.new (taken_by reg.now (space_text space.now) taken.old (act_of act))) }
{
    match own_refusal(alloc, reg, &act)? {
        Some(refusal) => Ok(Turn::Denied(refusal)),
        None => placed(alloc, reg, space, taken, act),
    }
}

/// An item that its own words don't refuse.
fn placed(
    alloc: Global,
    reg: &Registry,
    space: &Space,
    taken: &mut Taken,
    act: Act,
) -> Result<Turn, AllocError>
    ensures turn { let raw = raw_in reg.now (space_text space.now) (target_of (act_of act)) in IfOk result (λ turn. turn_of turn ≡ turn_over None (lists raw taken.old) raw (act_of act)) }
    ensures taken { let raw = raw_in reg.now (space_text space.now) (target_of (act_of act)) in IfOk result (λ _. AreSame taken.new (raw ∷ taken.old)) }
{
    let raw = raw_of(alloc, reg, space, act.type_name(), act.id())?;
    if taken.take(&raw)? {
        Ok(Turn::Goes { raw, act })
    } else {
        Ok(Turn::Denied(Refuse::Conflict))
    }
}

/// The refusal of an act by its own words.
fn own_refusal(alloc: Global, reg: &Registry, act: &Act) -> Result<Option<Refuse>, AllocError>
    ensures { IfOk result (λ refusal. refusal ≡ own_words product_words reg.now (act_of act.now)) }
{
    match act {
        Act::Create { object, .. } => Ok(create_refusal(reg, object)),
        Act::Update { change, .. } => update_refusal(alloc, reg, change),
        Act::Delete { target, .. } => Ok(delete_refusal(reg, target)),
        Act::Share { target, .. } => Ok(share_refusal(reg, target)),
    }
}

/// The raw ids of the items that are left to judge, in their order.
pub fn raws_of(alloc: Global, turns: &List<Turn>) -> Result<List<Text>, AllocError>
    ensures { IfOk result (λ raws. raws ≡ raws_to_judge (map turn_of turns.now)) }
{
    let mut raws = List::new(alloc);
    for turn in turns.as_slice() {
        add_raw(&mut raws, turn)?;
    }
    Ok(raws)
}

/// Adds the raw id of an item that is left to judge.
fn add_raw(raws: &mut List<Text>, turn: &Turn) -> Result<(), AllocError>
    ensures { IfOk result (λ _. raws.new ≡ raws.old ++ raws_to_judge (turn_of turn.now ∷ [])) }
{
    match turn {
        Turn::Denied(_) => Ok(()),
        Turn::Goes { raw, .. } => raws.push(raw.clone()?),
    }
}

/// Whether each item that is left to judge is a create without overwrite, which reads no row. Takes
/// no memory.
pub fn all_blind(turns: &List<Turn>) -> bool
    ensures { result ≡ are_blind (map turn_of turns.now) }
{
    for turn in turns.as_slice() {
        if !is_blind(turn) {
            return false;
        }
    }
    true
}

/// Whether the item reads no row.
fn is_blind(turn: &Turn) -> bool
    ensures { result ≡ are_blind (turn_of turn.now ∷ []) }
{
    match turn {
        Turn::Denied(_) => true,
        Turn::Goes {
            act: Act::Create { overwrite, .. },
            ..
        } => !*overwrite,
        Turn::Goes { .. } => false,
    }
}
