//! The plan of a resolve.
ghost use Rattle.std.specs.Prelude.{◌≡◌, ◌∷◌, [], IfOk};
ghost use Rattle.space_scope.specs.Spaces.{space_text};
ghost use Rattle.store_words.specs.Words.{reply_of};
ghost use Rattle.call_model.specs.Calls.Call.{Resolving};
ghost use Rattle.call_model.specs.Acts.{raw_of as raw_in};
ghost use Rattle.call_model.specs.Steps.{unless_words, look_words, alias_of as alias_in, target_raw as raw_of_target};
ghost use Rattle.call_model.specs.Steps.Work.{Following};
ghost use Rattle.object_answers.specs.Following.{followed as followed_by};
ghost use Rattle.object_answers.specs.declared.resolving.Followed.TheVariants as told;
ghost use Rattle.object_ops.specs.Mapped.{progress_of};
ghost use Rattle.object_ops.specs.Stages.{begun, begun_work, after_following as after_followed};

use crate::asking::read_of;
use crate::copying::{copied_space, copied_target};
use crate::plan::Plan;
use crate::stage::Stage;
use call_words::{Refuse, Target, alias_of, look_refusal, raw_of, read_space, target_raw};
use object_answers::{Followed, follow};
use plain_data::{List, Text};
use space_scope::Space;
use std::alloc::{AllocError, Global};
use store_words::Reply;
use type_registry::Registry;

/// The plan of a resolve.
pub(crate) fn resolve(
    alloc: Global,
    reg: &Registry,
    space: &Text,
    target: &Target,
) -> Result<Plan, AllocError>
    ensures { IfOk result (λ plan. progress_of plan ≡ begun reg.now (Resolving space.now target.now)) }
{
    match read_space(alloc, space.as_str())? {
        Some(space) => resolve_in(alloc, reg, space, target),
        None => Ok(Plan::refused(Refuse::BadSpace)),
    }
}

fn resolve_in(
    alloc: Global,
    reg: &Registry,
    space: Space,
    target: &Target,
) -> Result<Plan, AllocError>
    ensures { IfOk result (λ plan. progress_of plan ≡ begun_work reg.now (unless_words (look_words reg.now target.now) (Following (space_text space) target.now))) }
{
    match look_refusal(reg, target) {
        Some(refuse) => Ok(Plan::refused(refuse)),
        None => begin(alloc, reg, space, target),
    }
}

/// A read of the exact row and the alias document.
fn begin(alloc: Global, reg: &Registry, space: Space, target: &Target) -> Result<Plan, AllocError>
    ensures { IfOk result (λ plan. progress_of plan ≡ begun_work reg.now (Following (space_text space) target.now)) }
{
    let raws = both_raws(alloc, reg, &space, target)?;
    let request = read_of(alloc, reg, raws)?;
    let target = copied_target(target)?;
    Ok(Plan::asking(request, Stage::Following { space, target }))
}

/// What follows the read of both.
pub(crate) fn after_following(
    alloc: Global,
    reg: &Registry,
    space: &Space,
    target: &Target,
    reply: &Reply,
) -> Result<Plan, AllocError>
    ensures { IfOk result (λ plan. progress_of plan ≡ after_followed reg.now (space_text space.now) target.now (followed_by reg.now (space_text space.now) target.now (reply_of reply.now))) }
{
    match follow(alloc, reg, space, target, reply)? {
        Followed::Answered(answer) => Ok(Plan::ended(answer)),
        Followed::Leads { seen, goal } => meet(alloc, reg, space, target, seen, &goal),
    }
}

/// A read of both again beside the alias's target.
fn meet(
    alloc: Global,
    reg: &Registry,
    space: &Space,
    target: &Target,
    seen: Option<u64>,
    goal: &Target,
) -> Result<Plan, AllocError>
    ensures { IfOk result (λ plan. progress_of plan ≡ after_followed reg.now (space_text space.now) target.now (told.Leads seen goal.now)) }
{
    let raws = all_raws(alloc, reg, space, target, goal)?;
    let request = read_of(alloc, reg, raws)?;
    let space = copied_space(space)?;
    let target = copied_target(target)?;
    Ok(Plan::asking(
        request,
        Stage::Meeting {
            space,
            target,
            seen,
        },
    ))
}

/// The raw ids of the exact row and of the alias document.
fn both_raws(
    alloc: Global,
    reg: &Registry,
    space: &Space,
    target: &Target,
) -> Result<List<Text>, AllocError>
    ensures { IfOk result (λ raws. raws ≡ raw_in reg.now (space_text space.now) target.now ∷ alias_in (space_text space.now) target.now ∷ []) }
{
    let mut raws = List::new(alloc);
    let type_name = target.type_name.as_str();
    let id = target.id.as_str();
    raws.push(raw_of(alloc, reg, space, type_name, id)?)?;
    raws.push(alias_of(alloc, space, target)?)?;
    Ok(raws)
}

/// The raw ids of both, and of the alias's target.
fn all_raws(
    alloc: Global,
    reg: &Registry,
    space: &Space,
    target: &Target,
    goal: &Target,
) -> Result<List<Text>, AllocError>
    ensures { IfOk result (λ raws. raws ≡ raw_in reg.now (space_text space.now) target.now ∷ alias_in (space_text space.now) target.now ∷ raw_of_target goal.now ∷ []) }
{
    let mut raws = both_raws(alloc, reg, space, target)?;
    let raw = target_raw(alloc, goal)?;
    raws.push(raw)?;
    Ok(raws)
}
