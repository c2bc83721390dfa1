ghost use Rattle.std.specs.Prelude.{◌≡◌, IfOk};
ghost use Rattle.store_words.specs.Words.{reply_of};
ghost use Rattle.object_ops.specs.Mapped.{progress_of, stage_of};
ghost use Rattle.object_ops.specs.Stages.{went_on, CanGoOn};

use crate::changing::after_reading;
use crate::copying::copied_answer;
use crate::following::after_following;
use crate::plan::Plan;
use crate::stage::Stage;
use call_words::Answer;
use object_answers::{between, found_answer, page_answer};
use object_items::bulk_answer;
use std::alloc::{AllocError, Global};
use store_words::Reply;
use type_registry::Registry;

/// The plan after the reply to the request of this stage.
#[tactic(auto, unfolding(crate::specs::Stages::went_on))]
pub(crate) fn go_on(
    alloc: Global,
    reg: &Registry,
    stage: &Stage,
    reply: &Reply,
) -> Result<Plan, AllocError>
    requires { CanGoOn reg.now (stage_of stage.now) }
    ensures { IfOk result (λ plan. progress_of plan ≡ went_on reg.now (stage_of stage.now) (reply_of reply.now)) }
{
    let answer = match stage {
        Stage::Reading {
            alone,
            space,
            turns,
        } => return after_reading(alloc, reg, *alone, space, turns, reply),
        Stage::Following { space, target } => {
            return after_following(alloc, reg, space, target, reply);
        }
        Stage::Known(answer) | Stage::Ended(answer) => copied_answer(answer)?,
        Stage::Writing { alone, items } => bulk_answer(alloc, reg, *alone, items, reply)?,
        Stage::Looking {
            alone,
            space,
            looks,
        } => found_answer(alloc, reg, *alone, space, looks, reply)?,
        Stage::Searching { page, per_page } => page_answer(alloc, reg, *page, *per_page, reply)?,
        Stage::Meeting {
            space,
            target,
            seen,
        } => between(alloc, reg, space, target, *seen, reply)?,
    };
    Ok(Plan::ended(answer))
}
