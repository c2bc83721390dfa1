//! What the store shows where a start of an instance ends, and that an unhindered start ends as done.
#![tactic(auto)]

ghost use Rattle.std.specs.Prelude.{◌≡◌, ◌≢◌, ◌≤◌, ℕ, Bool, List, [], ◌∷◌, ◌++◌, Option, Some};
ghost use Rattle.base_model.specs.Keyed.{Text, at};
ghost use Rattle.race_model.specs.Stores.{Rows, Request};
ghost use Rattle.race_model.specs.Machines.{Settings, Cause, StateName, Machine, request, moved};
ghost use Rattle.race_model.specs.Machines.State.{Init, Ended};
ghost use Rattle.race_model.specs.Machines.End.{Fatal, GaveUp};
ghost use Rattle.race_model.specs.Worlds.{Entry, Event, Node, nth};
ghost use Rattle.race_model.specs.Worlds.Actor.{Instance};
ghost use Rattle.race_model.specs.Worlds.How.{Heard};
ghost use Rattle.race_model.specs.Journals.{Has, Past, state_of, heard_of};
ghost use Rattle.race_model.specs.Openings.{Scenario, IsJournal, world_after, trace_after, facts_since};
ghost use Rattle.race_model.specs.Openings.Opening.{NoGeneration};
ghost use Rattle.race_model.specs.Premises.{IsFair, Paged};
ghost use Rattle.race_claims.specs.Shown.{IsShown};
ghost use Rattle.race_claims.specs.OneVersion.{IsOneVersion, IsByDocuments};
ghost use Rattle.race_claims.specs.Unfailing.{HasFailed, LastFailed, GaveUpAfter};
ghost use Rattle.race_claims.specs.Unhindered.{IsOwn, FindsUnknown, IsUnhindered, GoesWell};

/// Where a start ends as fatal at an entry, the store shows the cause at that moment; the causes
/// VersionAliasMissing, LegacyIndex, NameTaken and OutdatedId never come.
pub fn causes_are_shown<D, Q, C>()
    ensures { (scenario : Scenario D Q C) (is_fresh : Settings D Q → Text → D → Bool) (is_sound : C → Bool) (journal : List (Entry D Q)) (e : Entry D Q) →
        IsFair scenario is_fresh is_sound → IsJournal scenario (journal ++ e ∷ []) →
        (i : ℕ) (past : Past D Q) (cause : Cause) → e.actor ≡ Instance i → e.how ≡ Heard → nth (trace_after scenario journal).pasts i ≡ Some past →
        moved (scenario.race.settings i) (state_of e.tag past.runs) e.reply ≡ Ended (Fatal cause) →
        IsShown scenario.race.select scenario.current (scenario.race.settings i) (trace_after scenario journal).store (state_of e.tag past.runs) cause }
{}

/// A start that nothing stands against ends as done with its version's one target, within fourteen
/// replies and two for each page, of its own instance's, of its blocked source: along every journal it is done, or has a further
/// request within that bound. Nothing stands against it where the current alias named its version's
/// target at its first entry; or named an index of a version not above, or nothing, and since then no
/// migration or install of another version was done, and at each of its own entries the indices of its
/// names have that source, no unknown, corrupt or newer document stands in it, and it is clean once it
/// is blocked.
pub fn unhindered_starts_end_as_done<D, Q, C>()
    ensures { (scenario : Scenario D Q C) (is_fresh : Settings D Q → Text → D → Bool) (is_sound : C → Bool) (version_in : Text → Option Text) (pages : ℕ → Rows D → ℕ)
        (before after : List (Entry D Q)) (first : Entry D Q) (i tag : ℕ) (start past : Past D Q) →
        IsFair scenario is_fresh is_sound → ((v : Settings D Q) → Has v scenario.sets → (version : Text) × (version_in v.target ≡ Some version)) →
        ((j : ℕ) → Paged scenario.race.select (scenario.race.settings j) (pages j)) → FindsUnknown scenario.race.select (scenario.race.settings i) →
        IsJournal scenario (before ++ first ∷ after) →
        IsOwn i tag first → nth (trace_after scenario before).pasts i ≡ Some start → state_of tag start.runs ≡ Init →
        IsUnhindered scenario.race i tag (scenario.race.settings i) (facts_since scenario version_in before (first ∷ after)) (trace_after scenario before) (first ∷ after) (at scenario.current (trace_after scenario before).store.aliases) →
        nth (trace_after scenario (before ++ first ∷ after)).pasts i ≡ Some past →
        GoesWell (pages i) (scenario.race.settings i) (trace_after scenario (before ++ first ∷ after)).store (at scenario.current (trace_after scenario before).store.aliases) (heard_of tag past.runs) (state_of tag past.runs) }
{}

/// Where every instance is of one version, above the opening's, a start fails by documents alone: it
/// ends with one of the causes UnknownObjects, CorruptObjects, NewerObjects and Collision, and in a
/// store that opened empty it never fails. So NewerIndex, OtherVersion and Leftover never come.
pub fn one_version_fails_by_documents<D, Q, C>()
    ensures { (scenario : Scenario D Q C) (is_fresh : Settings D Q → Text → D → Bool) (is_sound : C → Bool) (v : Settings D Q) (journal : List (Entry D Q)) →
        IsFair scenario is_fresh is_sound → IsOneVersion scenario v → IsJournal scenario journal →
        (i tag : ℕ) (past : Past D Q) (cause : Cause) → nth (trace_after scenario journal).pasts i ≡ Some past → state_of tag past.runs ≡ Ended (Fatal cause) →
        IsByDocuments cause × (scenario.opening ≢ NoGeneration) }
{}

/// The same of every world.
pub fn worlds_of_one_version_fail_by_documents<D, Q, C>()
    ensures { (scenario : Scenario D Q C) (is_fresh : Settings D Q → Text → D → Bool) (is_sound : C → Bool) (v : Settings D Q) (events : List Event) →
        IsFair scenario is_fresh is_sound → IsOneVersion scenario v →
        (i : ℕ) (node : Node D Q) (m : Machine D) (cause : Cause) → nth (world_after scenario events).nodes i ≡ Some node → node.machine ≡ Some m → m.state ≡ Ended (Fatal cause) →
        IsByDocuments cause × (scenario.opening ≢ NoGeneration) }
{}

/// The same of a world, for the start of an instance none of whose sends failed: its machine is done
/// with its version's one target, or has a further request within the bound.
pub fn unhindered_machines_end_as_done<D, Q, C>()
    ensures { (scenario : Scenario D Q C) (is_fresh : Settings D Q → Text → D → Bool) (is_sound : C → Bool) (version_in : Text → Option Text) (pages : ℕ → Rows D → ℕ)
        (events : List Event) (before after : List (Entry D Q)) (first : Entry D Q) (i : ℕ) (start : Past D Q) (node : Node D Q) (m : Machine D) →
        IsFair scenario is_fresh is_sound → ((v : Settings D Q) → Has v scenario.sets → (version : Text) × (version_in v.target ≡ Some version)) →
        ((j : ℕ) → Paged scenario.race.select (scenario.race.settings j) (pages j)) → FindsUnknown scenario.race.select (scenario.race.settings i) →
        nth (world_after scenario events).nodes i ≡ Some node → node.machine ≡ Some m → (HasFailed node.starts node.sent → ⊥) →
        (world_after scenario events).journal ≡ before ++ first ∷ after →
        IsOwn i node.starts first → nth (trace_after scenario before).pasts i ≡ Some start → state_of node.starts start.runs ≡ Init →
        IsUnhindered scenario.race i node.starts (scenario.race.settings i) (facts_since scenario version_in before (first ∷ after)) (trace_after scenario before) (first ∷ after) (at scenario.current (trace_after scenario before).store.aliases) →
        (heard : ℕ) × GoesWell (pages i) (scenario.race.settings i) (world_after scenario events).store (at scenario.current (trace_after scenario before).store.aliases) heard m.state }
{}

/// In every world, whatever its sets and clients: a start gave up only after the request of the state that
/// it names failed once more than it may try, in a row and last of all; and a machine that has a request
/// failed no more often in a row than it may try, the faults that it counts being its last sends.
pub fn giving_up_counts_faults<D, Q, C>()
    ensures gave_up { (scenario : Scenario D Q C) (events : List Event) (i : ℕ) (node : Node D Q) (m : Machine D) (name : StateName) (faults : ℕ) →
        nth (world_after scenario events).nodes i ≡ Some node → node.machine ≡ Some m → m.state ≡ Ended (GaveUp name faults) →
        GaveUpAfter (scenario.race.settings i) node name faults }
    ensures goes_on { (scenario : Scenario D Q C) (events : List Event) (i : ℕ) (node : Node D Q) (m : Machine D) (ask : Request D Q) →
        nth (world_after scenario events).nodes i ≡ Some node → node.machine ≡ Some m → request (scenario.race.settings i) m.state ≡ Some ask →
        (m.faults ≤ (scenario.race.settings i).attempts) × LastFailed node.starts ask m.faults node.sent }
{}
