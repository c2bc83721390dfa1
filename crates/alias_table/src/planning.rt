ghost use Rattle.std.specs.Prelude.{◌≡◌, [], ◌∷◌, ◌++◌, IfOk, IfErr, OnOk, IfSome};
ghost use Rattle.race_model.specs.Stores.{act};
ghost use Rattle.race_model.specs.Stores.Acted.{Now, Stuck};
ghost use Rattle.race_model.specs.Stores.Action.{RemoveMustExist, Add, RemoveIndex};
ghost use Rattle.alias_table.specs.Plans.{keyed_of, bare_store, action_of, removed_one, removed_by, names_after, names_without, refusal_of, acted_on};

use crate::action::Action;
use crate::error::PlanError;
use crate::lists::{has_name, named_by, with_pair, without_alias, without_index, without_name};
use crate::pair::Pair;
use plain_data::{List, Text};

/// What an alias request leaves.
#[derive(Clone, Debug, PartialEq, Eq, Drop)]
pub struct Planned {
    /// The aliases, each with the index that it names.
    pub aliases: List<Pair>,
    /// The indices that go, in the order of the actions.
    pub removed: List<Text>,
}

/// The aliases and the names of the indices while the actions are done.
#[derive(Debug, Drop)]
struct Draft {
    aliases: List<Pair>,
    names: List<Text>,
    removed: List<Text>,
}

/// Does the actions in order on these aliases and indices, without touching either.
///
/// The first action that cannot be done is the error: `AliasMissing` where an alias that is to go
/// does not name the index; of an add, `NoIndex` where there is no such index, then `NameTaken`
/// where an index has the alias's name, then `AliasTaken` where the alias names another index;
/// `NoIndex` where an index that is to go is not there. `Memory` where memory runs out.
#[tactic(auto, unfolding(race_model::specs::Stores::act_all, crate::specs::Plans::removed_by, crate::specs::Plans::names_after))]
pub fn plan(
    aliases: &List<Pair>,
    indices: &List<Text>,
    actions: &List<Action>,
) -> Result<Planned, PlanError>
    ensures done { IfOk result (λ p. acted_on indices.now aliases.now actions.now ≡ Now (bare_store (names_after indices.now p.removed) p.aliases)) }
    ensures removed { IfOk result (λ p. p.removed ≡ removed_by actions.now) }
    ensures refused { IfErr result (λ e. IfSome (refusal_of e) (λ why. acted_on indices.now aliases.now actions.now ≡ Stuck why)) }
{
    let mut draft = Draft {
        aliases: aliases.clone()?,
        names: indices.clone()?,
        removed: List::new(actions.alloc()),
    };
    for action in actions.as_slice() {
        match draft.act(action) {
            Ok(()) => (),
            Err(e) => return Err(e),
        }
    }
    let Draft {
        aliases,
        removed,
        ..
    } = draft;
    Ok(Planned { aliases, removed })
}

impl Draft {
    #[tactic(auto, unfolding(crate::specs::Plans::names_after))]
    fn act(&mut self, action: &Action) -> Result<(), PlanError>
        ensures done { OnOk result (act (bare_store self.old.names self.old.aliases) (action_of action.now) ≡ Now (bare_store self.new.names self.new.aliases)) }
        ensures removed { OnOk result (self.new.removed ≡ self.old.removed ++ removed_one action.now) }
        ensures names { OnOk result (self.new.names ≡ names_after self.old.names (removed_one action.now)) }
        ensures refused { IfErr result (λ e. IfSome (refusal_of e) (λ why. act (bare_store self.old.names self.old.aliases) (action_of action.now) ≡ Stuck why)) }
    {
        match action {
            Action::RemoveMustExist { alias, index } => self.remove_alias(alias, index),
            Action::Add { alias, index } => self.add_alias(alias, index),
            Action::RemoveIndex(index) => self.remove_index(index),
        }
    }

    #[tactic(auto, unfolding(race_model::specs::Stores::act, base_model::specs::Keyed::same))]
    fn remove_alias(&mut self, alias: &Text, index: &Text) -> Result<(), PlanError>
        ensures done { OnOk result (act (bare_store self.old.names self.old.aliases) (RemoveMustExist alias.now index.now) ≡ Now (bare_store self.old.names self.new.aliases)) }
        ensures others { (self.new.names ≡ self.old.names) × (self.new.removed ≡ self.old.removed) }
        ensures refused { IfErr result (λ e. IfSome (refusal_of e) (λ why. act (bare_store self.old.names self.old.aliases) (RemoveMustExist alias.now index.now) ≡ Stuck why)) }
    {
        match named_by(&self.aliases, alias) {
            Some(named) if *named == *index => {
                self.aliases = without_alias(&self.aliases, alias)?;
                Ok(())
            }
            _ => Err(PlanError::AliasMissing {
                alias: alias.clone()?,
                index: index.clone()?,
            }),
        }
    }

    #[tactic(auto, unfolding(race_model::specs::Stores::act, base_model::specs::Keyed::same))]
    fn add_alias(&mut self, alias: &Text, index: &Text) -> Result<(), PlanError>
        ensures done { OnOk result (act (bare_store self.old.names self.old.aliases) (Add alias.now index.now) ≡ Now (bare_store self.old.names self.new.aliases)) }
        ensures others { (self.new.names ≡ self.old.names) × (self.new.removed ≡ self.old.removed) }
        ensures refused { IfErr result (λ e. IfSome (refusal_of e) (λ why. act (bare_store self.old.names self.old.aliases) (Add alias.now index.now) ≡ Stuck why)) }
    {
        if !has_name(&self.names, index) {
            return Err(PlanError::NoIndex(index.clone()?));
        }
        if has_name(&self.names, alias) {
            return Err(PlanError::NameTaken(alias.clone()?));
        }
        match named_by(&self.aliases, alias) {
            Some(named) if *named == *index => Ok(()),
            Some(named) => Err(PlanError::AliasTaken {
                alias: alias.clone()?,
                index: named.clone()?,
            }),
            None => {
                let pair = Pair {
                    alias: alias.clone()?,
                    index: index.clone()?,
                };
                self.aliases = with_pair(&self.aliases, pair)?;
                Ok(())
            }
        }
    }

    #[tactic(auto, using(crate::proofs::Drafts::bare_without), unfolding(race_model::specs::Stores::act))]
    fn remove_index(&mut self, index: &Text) -> Result<(), PlanError>
        ensures done { OnOk result (act (bare_store self.old.names self.old.aliases) (RemoveIndex index.now) ≡ Now (bare_store self.new.names self.new.aliases)) }
        ensures removed { OnOk result (self.new.removed ≡ self.old.removed ++ index.now ∷ []) }
        ensures names { OnOk result (self.new.names ≡ names_without index.now self.old.names) }
        ensures refused { IfErr result (λ e. IfSome (refusal_of e) (λ why. act (bare_store self.old.names self.old.aliases) (RemoveIndex index.now) ≡ Stuck why)) }
    {
        if !has_name(&self.names, index) {
            return Err(PlanError::NoIndex(index.clone()?));
        }
        let aliases = without_index(&self.aliases, index)?;
        let names = without_name(&self.names, index)?;
        self.removed.push(index.clone()?)?;
        self.aliases = aliases;
        self.names = names;
        Ok(())
    }
}
