//! Every journal that conforms is a run of generations, one table per version.
#![tactic(auto)]

ghost use Rattle.std.specs.Prelude.{◌≡◌, ℕ, Bool, List, Option, Some, None};
ghost use Rattle.base_model.specs.Keyed.{Text};
ghost use Rattle.race_model.specs.Machines.{Settings};
ghost use Rattle.race_model.specs.Machines.State.{Ended};
ghost use Rattle.race_model.specs.Machines.{End};
ghost use Rattle.race_model.specs.Worlds.{Entry, nth};
ghost use Rattle.race_model.specs.Journals.{Past, state_of};
ghost use Rattle.race_model.specs.Generations.{Generations, of_alias};
ghost use Rattle.race_model.specs.Runs.{IsRun};
ghost use Rattle.race_model.specs.Openings.{Scenario, opening_generations, found_at_opening, IsJournal, trace_after, facts_of_journal};
ghost use Rattle.race_model.specs.Premises.{IsFair};
ghost use Rattle.race_history.specs.Generated.{AreShown, HasFact};

/// Every journal that conforms is a run of one table per version: its facts, by playing the aliases,
/// are its moves; the versions rise; each version has at most one migration, which appends exactly the
/// migrated rows of the last generation, blocked and clean; each client is told what its own version's
/// generation tells; and the store shows the generations that the run ends with.
pub fn journals_are_runs<D, Q, C>()
    ensures { (scenario : Scenario D Q C) (is_fresh : Settings D Q → Text → D → Bool) (is_sound : C → Bool) (version_in : Text → Option Text) (journal : List (Entry D Q)) →
        IsFair scenario is_fresh is_sound → IsJournal scenario journal →
        (last : Generations D)
        × IsRun scenario.race scenario.current version_in (found_at_opening scenario.opening) (opening_generations scenario.opening) journal last
        × AreShown scenario.sets last (trace_after scenario journal).store }
{}

/// Along every journal that conforms, the start of an instance that ended as done names its version's
/// one target, and a migration or an install to it stands among the journal's facts. With the journal
/// up to the start's last entry this says that it stands at or before that entry.
pub fn done_has_its_fact<D, Q, C>()
    ensures { (scenario : Scenario D Q C) (is_fresh : Settings D Q → Text → D → Bool) (is_sound : C → Bool) (version_in : Text → Option Text) (journal : List (Entry D Q)) →
        IsFair scenario is_fresh is_sound → IsJournal scenario journal →
        (i : ℕ) (past : Past D Q) (tag : ℕ) (target version : Text) → nth (trace_after scenario journal).pasts i ≡ Some past →
        state_of tag past.runs ≡ Ended (End.Done target) → version_in (scenario.race.settings i).target ≡ Some version → of_alias (scenario.race.settings i).version (opening_generations scenario.opening) ≡ None →
        (target ≡ (scenario.race.settings i).target) × HasFact (scenario.race.settings i).target version (facts_of_journal scenario version_in journal) }
{}
