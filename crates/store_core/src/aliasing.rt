ghost use Rattle.std.specs.Prelude.{◌≡◌, map, IfOk, OnErr};
ghost use Rattle.race_model.specs.Stores.{act_all, acted_answer};
ghost use Rattle.race_model.specs.Stores.Acted.{Now};
ghost use Rattle.race_model.specs.Stores.Reply.{Refused};
ghost use Rattle.alias_table.specs.Plans.{action_of, refusal_of as planned_refusal};
ghost use Rattle.store_words.specs.Words.{reply_of};
ghost use Rattle.store_core.specs.Engines.{store_of, answer_of, without_all, AreThere, IsRefusal};

use alias_table::{Action, Pair, PlanError, Planned, plan};
use index_store::IndexStore;
use plain_data::{List, Text};
use std::alloc::AllocError;
use store_words::{Refusal, Reply};

/// Does the actions in order, all or none.
pub fn change(
    indices: &mut IndexStore,
    aliases: &mut List<Pair>,
    actions: &List<Action>,
) -> Result<Reply, AllocError>
    ensures ok { IfOk result (λ reply. answer_of indices.new aliases.new (reply_of reply) ≡ acted_answer (store_of indices.old aliases.old) (act_all (Now (store_of indices.old aliases.old)) (map action_of actions.now))) }
    ensures err { OnErr result ((indices.new ≡ indices.old) × (aliases.new ≡ aliases.old)) }
{
    let names = match indices.names() {
        Ok(names) => names,
        Err(refused) => return Err(refused),
    };
    match plan(aliases, &names, actions) {
        Ok(planned) => {
            let Planned {
                aliases: left,
                removed,
            } = planned;
            take_out(indices, &removed);
            *aliases = left;
            Ok(Reply::Done)
        }
        Err(error) => refused(error),
    }
}

/// Takes the indices out in order. Takes no memory.
fn take_out(indices: &mut IndexStore, removed: &List<Text>)
    requires { AreThere indices.old.indices removed.now }
    ensures { indices.new ≡ without_all indices.old removed.now }
{
    for name in removed.as_slice() {
        indices.remove(name.as_str());
    }
}

/// The refusal of a plan.
fn refused(error: PlanError) -> Result<Reply, AllocError>
    ensures { IfOk result (λ reply. IsRefusal reply (planned_refusal error)) }
{
    let refusal = match error {
        PlanError::Memory => return Err(AllocError),
        PlanError::AliasMissing { alias, index } => Refusal::AliasMissing { alias, index },
        PlanError::AliasTaken { alias, index } => Refusal::AliasTaken { alias, index },
        PlanError::NameTaken(name) => Refusal::NameTaken(name),
        PlanError::NoIndex(name) => Refusal::NoIndex(name),
    };
    Ok(Reply::Refused(refusal))
}
