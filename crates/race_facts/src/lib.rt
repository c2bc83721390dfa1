//! What holds of the store, of each instance and of each request along every journal that conforms,
//! and so of every world.
#![tactic(auto)]

ghost use Rattle.std.specs.Prelude.{List, Bool};
ghost use Rattle.base_model.specs.Keyed.{Text};
ghost use Rattle.race_model.specs.Machines.{Settings};
ghost use Rattle.race_model.specs.Worlds.{Event};
ghost use Rattle.race_model.specs.Openings.{Scenario, IsEmptyOpening, world_after};
ghost use Rattle.race_model.specs.Premises.{IsFair};
ghost use Rattle.race_facts.specs.Raced.{Raced};

/// Whatever happens in a world: an instance that is done names its version's one target; a fatal cause
/// is one that can come; no instance writes documents into a target; and until a version's switch its
/// target is exactly the migrated table of the blocked source.
pub fn worlds_race<D, Q, C>()
    ensures { (scenario : Scenario D Q C) (is_fresh : Settings D Q → Text → D → Bool) (is_sound : C → Bool) (events : List Event) →
        IsFair scenario is_fresh is_sound → Raced scenario.race scenario.sets (IsEmptyOpening scenario.opening) (world_after scenario events) }
{}
