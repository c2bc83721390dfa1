//! How many replies a start of an instance hears at most.
#![tactic(auto)]

ghost use Rattle.std.specs.Prelude.{ℕ, Bool, List};
ghost use Rattle.base_model.specs.Keyed.{Text};
ghost use Rattle.race_model.specs.Stores.{Rows};
ghost use Rattle.race_model.specs.Machines.{Settings};
ghost use Rattle.race_model.specs.Worlds.{Entry};
ghost use Rattle.race_model.specs.Openings.{Scenario, IsJournal, trace_after};
ghost use Rattle.race_model.specs.Premises.{IsFair, Paged};
ghost use Rattle.race_bound.specs.Short.{AllShort};

/// Along every journal that conforms no start of an instance looks again once it heard a reply, and
/// each hears at most fourteen replies and two for each page of a blocked generation of a version
/// below, in pages of that instance.
pub fn starts_are_short<D, Q, C>()
    ensures { (scenario : Scenario D Q C) (is_fresh : Settings D Q → Text → D → Bool) (is_sound : C → Bool) (pages : ℕ → Rows D → ℕ) (journal : List (Entry D Q)) →
        IsFair scenario is_fresh is_sound → ((i : ℕ) → Paged scenario.race.select (scenario.race.settings i) (pages i)) → IsJournal scenario journal →
        AllShort scenario.race pages scenario.sets (trace_after scenario journal) }
{}
