//! The plans of calls that change objects.
ghost use Rattle.std.specs.Prelude.{◌≡◌, ◌∷◌, [], not, true, IfOk, Bool, List as Items, map};
ghost use Rattle.base_model.specs.Keyed.{Text as Bytes};
ghost use Rattle.space_scope.specs.Spaces.{space_text};
ghost use Rattle.store_words.specs.Words.{reply_of};
ghost use Rattle.call_model.specs.Calls.Act.{Create, Update, Delete, Share};
ghost use Rattle.call_model.specs.Calls.Call.{Changing, BulkCreating};
ghost use Rattle.call_model.specs.declared.refuse.Refuse.TheVariants.{BadSpace};
ghost use Rattle.call_model.specs.Acts.{is_space};
ghost use Rattle.call_model.specs.Steps.{turns as turns_of, unless};
ghost use Rattle.call_model.specs.Steps.Work.{Writing};
ghost use Rattle.call_model.specs.Plans.{readied as readied_by, writes_of as writes_to_send};
ghost use Rattle.call_words.specs.Mapped.{new_object_of, change_of};
ghost use Rattle.call_words.specs.Product.{product_words};
ghost use Rattle.object_acts.specs.Mapped.{act_of};
ghost use Rattle.object_items.specs.Mapped.{turn_of, ready_of};
ghost use Rattle.object_items.specs.Judging.{AreJudgeable};
ghost use Rattle.race_model.specs.Stores.Request.{Get};
ghost use Rattle.raw_id.specs.IndexNames.{version_alias};
ghost use Rattle.object_ops.specs.Mapped.{progress_of};
ghost use Rattle.object_ops.specs.Stages.{asking, begun, begun_work, begun_writing, sending as sent_on, after_reading as after_read};
ghost use Rattle.object_ops.specs.Stages.Stage.{Reads};

use crate::asking::{bulk_of, read_of};
use crate::making::{creates_of, one_create, one_delete, one_share, one_update};
use crate::plan::Plan;
use crate::stage::Stage;
use call_words::{Change, NewObject, Refuse, Target, has_bad_space, read_space};
use object_acts::Act;
use object_items::{Ready, Turn, all_blind, raws_of, readied, settled_answer, turns, writes_of};
use plain_data::{List, Text};
use space_scope::Space;
use std::alloc::{AllocError, Global};
use store_words::Reply;
use type_registry::Registry;

/// The plan of a create.
#[tactic(auto, unfolding(crate::specs::Stages::begun, call_model::specs::Steps::work_of))]
pub(crate) fn create(
    alloc: Global,
    reg: &Registry,
    space: &Text,
    object: &NewObject,
    overwrite: bool,
    at: &Option<Text>,
) -> Result<Plan, AllocError>
    ensures { IfOk result (λ plan. progress_of plan ≡ begun reg.now (Changing space.now (Create (new_object_of object.now) overwrite at.now))) }
{
    let acts = one_create(alloc, object, overwrite, at)?;
    change(alloc, reg, true, space, acts)
}

/// The plan of a bulkCreate.
#[tactic(auto, unfolding(crate::specs::Stages::begun, call_model::specs::Steps::work_of))]
pub(crate) fn bulk_create(
    alloc: Global,
    reg: &Registry,
    space: &Text,
    objects: &List<NewObject>,
    overwrite: bool,
    at: &Option<Text>,
) -> Result<Plan, AllocError>
    ensures { IfOk result (λ plan. progress_of plan ≡ begun reg.now (BulkCreating space.now (map new_object_of objects.now) overwrite at.now)) }
{
    let acts = creates_of(alloc, objects, overwrite, at)?;
    change(alloc, reg, false, space, acts)
}

/// The plan of an update.
#[tactic(auto, unfolding(crate::specs::Stages::begun, call_model::specs::Steps::work_of))]
pub(crate) fn update(
    alloc: Global,
    reg: &Registry,
    space: &Text,
    given: &Change,
    at: &Option<Text>,
) -> Result<Plan, AllocError>
    ensures { IfOk result (λ plan. progress_of plan ≡ begun reg.now (Changing space.now (Update (change_of given.now) at.now))) }
{
    let acts = one_update(alloc, given, at)?;
    change(alloc, reg, true, space, acts)
}

/// The plan of a delete.
#[tactic(auto, unfolding(crate::specs::Stages::begun, call_model::specs::Steps::work_of))]
pub(crate) fn delete(
    alloc: Global,
    reg: &Registry,
    space: &Text,
    target: &Target,
    force: bool,
) -> Result<Plan, AllocError>
    ensures { IfOk result (λ plan. progress_of plan ≡ begun reg.now (Changing space.now (Delete target.now force))) }
{
    let acts = one_delete(alloc, target, force)?;
    change(alloc, reg, true, space, acts)
}

/// The plan of a share, which is refused as `BadSpace` too where one of the spaces to add or to
/// remove is none.
pub(crate) fn share(
    alloc: Global,
    reg: &Registry,
    space: &Text,
    target: &Target,
    add: &List<Text>,
    remove: &List<Text>,
    at: &Option<Text>,
) -> Result<Plan, AllocError>
    ensures { IfOk result (λ plan. progress_of plan ≡ begun reg.now (Changing space.now (Share target.now add.now remove.now at.now))) }
{
    if has_bad_space(space.as_str(), add, remove) {
        return Ok(Plan::refused(Refuse::BadSpace));
    }
    let acts = one_share(alloc, target, add, remove, at)?;
    change(alloc, reg, true, space, acts)
}

/// The plan of these acts in the space that a call names, which is refused as `BadSpace` where it is
/// none.
fn change(
    alloc: Global,
    reg: &Registry,
    alone: bool,
    space: &Text,
    acts: List<Act>,
) -> Result<Plan, AllocError>
    ensures { IfOk result (λ plan. progress_of plan ≡ begun_work reg.now (unless (not (is_space space.now)) BadSpace (Writing alone space.now (turns_of product_words reg.now space.now [] (map act_of acts))))) }
{
    match read_space(alloc, space.as_str())? {
        Some(space) => change_in(alloc, reg, alone, space, acts),
        None => Ok(Plan::refused(Refuse::BadSpace)),
    }
}

fn change_in(
    alloc: Global,
    reg: &Registry,
    alone: bool,
    space: Space,
    acts: List<Act>,
) -> Result<Plan, AllocError>
    ensures { IfOk result (λ plan. progress_of plan ≡ begun_work reg.now (Writing alone (space_text space) (turns_of product_words reg.now (space_text space) [] (map act_of acts)))) }
{
    let turns = turns(alloc, reg, &space, acts)?;
    begin(alloc, reg, alone, space, turns)
}

/// The plan of items that write: a ping where none is left to judge, their writes where none of them
/// reads, and else a read of their rows.
fn begin(
    alloc: Global,
    reg: &Registry,
    alone: bool,
    space: Space,
    turns: List<Turn>,
) -> Result<Plan, AllocError>
    requires { AreJudgeable reg.now (map turn_of turns) }
    ensures { IfOk result (λ plan. progress_of plan ≡ begun_work reg.now (Writing alone (space_text space) (map turn_of turns))) }
{
    let raws = raws_of(alloc, &turns)?;
    if raws.is_empty() {
        settle(alloc, reg, alone, &space, &turns)
    } else if all_blind(&turns) {
        write(alloc, reg, alone, &space, &turns)
    } else {
        read(alloc, reg, alone, space, turns, raws)
    }
}

/// The plan of items of which none is left to judge.
fn settle(
    alloc: Global,
    reg: &Registry,
    alone: bool,
    space: &Space,
    turns: &List<Turn>,
) -> Result<Plan, AllocError>
    requires { AreJudgeable reg.now (map turn_of turns.now) }
    ensures { (blind : Bool) → IfOk result (λ plan. progress_of plan ≡ begun_writing reg.now alone (space_text space.now) blind [] (map turn_of turns.now)) }
{
    let items = unread(alloc, reg, space, turns)?;
    let answer = settled_answer(alloc, reg, alone, &items)?;
    Ok(Plan::known(answer))
}

/// The plan of items that read no row.
fn write(
    alloc: Global,
    reg: &Registry,
    alone: bool,
    space: &Space,
    turns: &List<Turn>,
) -> Result<Plan, AllocError>
    requires { AreJudgeable reg.now (map turn_of turns.now) }
    ensures { (raw : Bytes) (raws : Items Bytes) → IfOk result (λ plan. progress_of plan ≡ begun_writing reg.now alone (space_text space.now) true (raw ∷ raws) (map turn_of turns.now)) }
{
    let items = unread(alloc, reg, space, turns)?;
    let writes = writes_of(alloc, &items)?;
    let request = bulk_of(alloc, reg, writes)?;
    Ok(Plan::asking(request, Stage::Writing { alone, items }))
}

/// The items, judged by no rows.
fn unread(
    alloc: Global,
    reg: &Registry,
    space: &Space,
    turns: &List<Turn>,
) -> Result<List<Ready>, AllocError>
    requires { AreJudgeable reg.now (map turn_of turns.now) }
    ensures { IfOk result (λ items. map ready_of items ≡ readied_by product_words reg.now (space_text space.now) (map turn_of turns.now) []) }
{
    let rows = List::new(alloc);
    readied(alloc, reg, space, turns, &rows)
}

/// The plan of items that read their rows.
fn read(
    alloc: Global,
    reg: &Registry,
    alone: bool,
    space: Space,
    turns: List<Turn>,
    raws: List<Text>,
) -> Result<Plan, AllocError>
    ensures { IfOk result (λ plan. progress_of plan ≡ asking (Get (version_alias reg.now.version) raws) (Reads alone (space_text space) (map turn_of turns))) }
{
    let request = read_of(alloc, reg, raws)?;
    Ok(Plan::asking(
        request,
        Stage::Reading {
            alone,
            space,
            turns,
        },
    ))
}

/// What follows the read of the items' rows.
pub(crate) fn after_reading(
    alloc: Global,
    reg: &Registry,
    alone: bool,
    space: &Space,
    turns: &List<Turn>,
    reply: &Reply,
) -> Result<Plan, AllocError>
    requires { AreJudgeable reg.now (map turn_of turns.now) }
    ensures { IfOk result (λ plan. progress_of plan ≡ after_read reg.now alone (space_text space.now) (map turn_of turns.now) (reply_of reply.now)) }
{
    match reply {
        Reply::Found(rows) => {
            let items = readied(alloc, reg, space, turns, rows)?;
            send(alloc, reg, alone, items)
        }
        _ => Ok(Plan::not_ready()),
    }
}

/// The writes of the items that send one, or the answer where none does.
fn send(alloc: Global, reg: &Registry, alone: bool, items: List<Ready>) -> Result<Plan, AllocError>
    ensures { IfOk result (λ plan. progress_of plan ≡ sent_on reg.now alone (writes_to_send (map ready_of items)) (map ready_of items)) }
{
    let writes = writes_of(alloc, &items)?;
    if writes.is_empty() {
        let answer = settled_answer(alloc, reg, alone, &items)?;
        Ok(Plan::ended(answer))
    } else {
        let request = bulk_of(alloc, reg, writes)?;
        Ok(Plan::asking(request, Stage::Writing { alone, items }))
    }
}
