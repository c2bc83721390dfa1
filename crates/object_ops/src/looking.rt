//! The plans of calls that read objects.
ghost use Rattle.std.specs.Prelude.{◌≡◌, ◌∷◌, [], not, IfOk, map};
ghost use Rattle.space_scope.specs.Spaces.{space_text};
ghost use Rattle.call_model.specs.Calls.Call.{Getting, BulkGetting};
ghost use Rattle.call_model.specs.declared.refuse.Refuse.TheVariants.{BadSpace};
ghost use Rattle.call_model.specs.Acts.{is_space};
ghost use Rattle.call_model.specs.Steps.{looks as looks_of, unless};
ghost use Rattle.call_model.specs.Steps.Work.{Looking};
ghost use Rattle.object_answers.specs.Mapped.{look_of};
ghost use Rattle.object_ops.specs.Mapped.{progress_of};
ghost use Rattle.object_ops.specs.Stages.{begun, begun_work};

use crate::asking::read_of;
use crate::copying::copied_target;
use crate::plan::Plan;
use crate::stage::Stage;
use call_words::{Refuse, Target, read_space};
use object_answers::{Look, looked_raws, looks, refused_answer};
use plain_data::{List, Text};
use space_scope::Space;
use std::alloc::{AllocError, Global};
use type_registry::Registry;

/// The plan of a get.
#[tactic(auto, unfolding(crate::specs::Stages::begun, call_model::specs::Steps::work_of))]
pub(crate) fn get(
    alloc: Global,
    reg: &Registry,
    space: &Text,
    target: &Target,
) -> Result<Plan, AllocError>
    ensures { IfOk result (λ plan. progress_of plan ≡ begun reg.now (Getting space.now target.now)) }
{
    let targets = one_target(alloc, target)?;
    look_up(alloc, reg, true, space, &targets)
}

/// The plan of a bulkGet.
#[tactic(auto, unfolding(crate::specs::Stages::begun, call_model::specs::Steps::work_of))]
pub(crate) fn bulk_get(
    alloc: Global,
    reg: &Registry,
    space: &Text,
    targets: &List<Target>,
) -> Result<Plan, AllocError>
    ensures { IfOk result (λ plan. progress_of plan ≡ begun reg.now (BulkGetting space.now targets.now)) }
{
    look_up(alloc, reg, false, space, targets)
}

fn one_target(alloc: Global, target: &Target) -> Result<List<Target>, AllocError>
    ensures { IfOk result (λ targets. targets ≡ target.now ∷ []) }
{
    let mut targets = List::new(alloc);
    let target = copied_target(target)?;
    targets.push(target)?;
    Ok(targets)
}

/// The plan of a read of these targets in the space that a call names, which is refused as
/// `BadSpace` where it is none.
fn look_up(
    alloc: Global,
    reg: &Registry,
    alone: bool,
    space: &Text,
    targets: &List<Target>,
) -> Result<Plan, AllocError>
    ensures { IfOk result (λ plan. progress_of plan ≡ begun_work reg.now (unless (not (is_space space.now)) BadSpace (Looking alone space.now (looks_of reg.now targets.now)))) }
{
    match read_space(alloc, space.as_str())? {
        Some(space) => look_in(alloc, reg, alone, space, targets),
        None => Ok(Plan::refused(Refuse::BadSpace)),
    }
}

fn look_in(
    alloc: Global,
    reg: &Registry,
    alone: bool,
    space: Space,
    targets: &List<Target>,
) -> Result<Plan, AllocError>
    ensures { IfOk result (λ plan. progress_of plan ≡ begun_work reg.now (Looking alone (space_text space) (looks_of reg.now targets.now))) }
{
    let looks = looks(alloc, reg, targets)?;
    begin(alloc, reg, alone, space, looks)
}

/// The plan of targets: a ping where none is left to look up, and else a read of their rows.
fn begin(
    alloc: Global,
    reg: &Registry,
    alone: bool,
    space: Space,
    looks: List<Look>,
) -> Result<Plan, AllocError>
    ensures { IfOk result (λ plan. progress_of plan ≡ begun_work reg.now (Looking alone (space_text space) (map look_of looks))) }
{
    let raws = looked_raws(alloc, reg, &space, &looks)?;
    if raws.is_empty() {
        let answer = refused_answer(alloc, reg, alone, &space, &looks)?;
        Ok(Plan::known(answer))
    } else {
        let request = read_of(alloc, reg, raws)?;
        Ok(Plan::asking(
            request,
            Stage::Looking {
                alone,
                space,
                looks,
            },
        ))
    }
}
