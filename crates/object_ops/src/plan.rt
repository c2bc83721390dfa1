ghost use Rattle.std.specs.Prelude.{◌≡◌, IfOk, OnErr, option_map};
ghost use Rattle.std.specs.Option.{option_copied};
ghost use Rattle.race_model.specs.Stores.Request.{Ping};
ghost use Rattle.document_model.specs.Registries.{Registry as ModelRegistry};
ghost use Rattle.transform_ops.specs.declared.op.Op.{Op};
ghost use Rattle.store_words.specs.Words.{request_of, reply_of};
ghost use Rattle.call_model.specs.declared.refuse.Refuse.TheVariants.{NotReady};
ghost use Rattle.call_model.specs.Steps.{refused};
ghost use Rattle.call_model.specs.Steps.Work.{Refusing};
ghost use Rattle.call_words.specs.Limits.{HasFewObjects};
ghost use Rattle.call_words.specs.Mapped.{call_of};
ghost use Rattle.object_ops.specs.Stages.{asking, ended, ended_as, begun, begun_work, went_on, answer_in, CanGoOn};
ghost use Rattle.object_ops.specs.Stages.Stage.{Known};
ghost use Rattle.object_ops.specs.Mapped.{progress_of, stage_of};

use crate::going_on::go_on;
use crate::stage::Stage;
use crate::starting::start;
use call_words::{Answer, Call, Refuse};
use std::alloc::{AllocError, Global};
use store_words::{Reply, Request};
use type_registry::Registry;

/// The plan of a call: at each moment either its next request or its answer. A plan makes at most two
/// requests.
#[derive(Debug, Drop)]
pub struct Plan {
    pub(crate) request: Option<Request>,
    pub(crate) stage: Stage,
}

impl Plan {
    /// The plan of a call under a registry, before its first request; or want of memory.
    pub fn start(alloc: Global, reg: &Registry, call: &Call) -> Result<Plan, AllocError>
        requires { HasFewObjects call.now }
        ensures { IfOk result (λ plan. progress_of plan ≡ begun reg.now (call_of call.now)) }
    {
        start(alloc, reg, call)
    }

    /// The next request, or `None` where the plan has its answer. Takes no memory.
    pub fn request(&self) -> Option<&Request>
        ensures { option_map request_of (option_copied result) ≡ (progress_of self.now).ask }
    {
        self.request.as_ref()
    }

    /// Goes on with the reply to its request, under the registry that it was started with. After want
    /// of memory the plan is as it was.
    pub fn next(&mut self, alloc: Global, reg: &Registry, reply: &Reply) -> Result<(), AllocError>
        requires { CanGoOn reg.now (progress_of self.old).stage }
        ensures ok { IfOk result (λ _. progress_of self.new ≡ went_on reg.now (progress_of self.old).stage (reply_of reply.now)) }
        ensures err { OnErr result (self.new ≡ self.old) }
    {
        match go_on(alloc, reg, &self.stage, reply) {
            Ok(plan) => {
                *self = plan;
                Ok(())
            }
            Err(refused) => Err(refused),
        }
    }

    /// The answer, or `None` where the plan has a request left. Takes no memory.
    pub fn answer(&self) -> Option<&Answer>
        ensures { option_copied result ≡ answer_in (progress_of self.now).stage }
    {
        match &self.stage {
            Stage::Ended(answer) => Some(answer),
            _ => None,
        }
    }

    /// The answer, or `None` where the plan has a request left. Takes no memory.
    pub fn into_answer(self) -> Option<Answer>
        ensures { result ≡ answer_in (progress_of self).stage }
    {
        let Plan { request: _, stage } = self;
        ended_with(stage)
    }

    /// It asks this next.
    pub(crate) fn asking(request: Request, stage: Stage) -> Plan
        ensures { progress_of result ≡ asking (request_of request) (stage_of stage) }
    {
        Plan {
            request: Some(request),
            stage,
        }
    }

    /// It has this answer whatever the store replies, and asks nothing of it.
    pub(crate) fn known(answer: Answer) -> Plan
        ensures { progress_of result ≡ asking Ping (Known answer) }
    {
        Plan::asking(Request::Ping, Stage::Known(answer))
    }

    /// It is refused before it asks anything of the store.
    pub(crate) fn refused(refuse: Refuse) -> Plan
        ensures { (reg : ModelRegistry Op) → progress_of result ≡ begun_work reg (Refusing refuse) }
    {
        Plan::known(Answer::Refused(refuse))
    }

    /// It has this answer.
    pub(crate) fn ended(answer: Answer) -> Plan
        ensures { progress_of result ≡ ended answer }
    {
        Plan {
            request: None,
            stage: Stage::Ended(answer),
        }
    }

    /// The index isn't there.
    pub(crate) fn not_ready() -> Plan
        ensures { progress_of result ≡ ended_as (refused NotReady) }
    {
        Plan::ended(Answer::Refused(Refuse::NotReady))
    }
}

fn ended_with(stage: Stage) -> Option<Answer>
    ensures { result ≡ answer_in (stage_of stage) }
{
    match stage {
        Stage::Ended(answer) => Some(answer),
        _ => None,
    }
}
