//! The laws of a rollout: instances of any versions migrate real documents, while clients of any versions
//! make real object calls. No premise is about documents, queries, migrations, calls or names: there is one
//! set for each version, no type's name stands twice, batches aren't empty, the opening is in order and
//! numbered, and scripts begin.
#![tactic(auto)]

ghost use Rattle.std.specs.Prelude.{◌≡◌, ◌≢◌, ℕ, List, [], ◌∷◌, ◌++◌, map, Option, Some};
ghost use Rattle.base_model.specs.Keyed.{Text};
ghost use Rattle.race_model.specs.Stores.{Rows};
ghost use Rattle.race_model.specs.Machines.{Cause, End, Machine, moved, raws_where, is_unknown};
ghost use Rattle.race_model.specs.Machines.State.{Ended};
ghost use Rattle.race_model.specs.Machines.End.{Fatal};
ghost use Rattle.race_model.specs.Generations.{Generations};
ghost use Rattle.race_model.specs.Worlds.{Entry, Event, Node, nth};
ghost use Rattle.race_model.specs.Worlds.Actor.{Instance};
ghost use Rattle.race_model.specs.Worlds.How.{Heard};
ghost use Rattle.race_model.specs.Journals.{Past, state_of, heard_of};
ghost use Rattle.race_model.specs.Runs.{IsRun};
ghost use Rattle.race_model.specs.Openings.{IsEmptyOpening, opening_generations, found_at_opening, IsJournal, world_after, trace_after, facts_of_journal};
ghost use Rattle.race_facts.specs.Raced.{Raced};
ghost use Rattle.race_history.specs.Generated.{AreShown, HasFact};
ghost use Rattle.race_bound.specs.Short.{AllShort};
ghost use Rattle.race_claims.specs.Shown.{IsShown};
ghost use Rattle.race_claims.specs.OneVersion.{IsByDocuments};
ghost use Rattle.race_claims.specs.Unfailing.{HasFailed};
ghost use Rattle.race_claims.specs.Unhindered.{GoesWell};
ghost use Rattle.document_model.specs.Documents.{Doc};
ghost use Rattle.document_model.specs.Migrations.{outcome};
ghost use Rattle.query_model.specs.Queries.{Query, select};
ghost use Rattle.call_model.specs.Words.{Words};
ghost use Rattle.call_model.specs.History.{IsLegal};
ghost use Rattle.call_model.specs.Upgrades.{Named, TargetSet, Rollout, settings_of, scenario_of, named_version};
ghost use Rattle.call_model.specs.Upgrades.Start.{Empty};
ghost use Rattle.upgrade_laws.specs.Premises.{HasProductNames, NamesApart, IsRollout, IsOfOneSet, pages_by};
ghost use Rattle.upgrade_laws.specs.Unhindered.{named_after, BeginsUnhindered};

/// Every journal of a rollout that conforms is legal: its facts, by playing the aliases and by the plans
/// of its clients, are a run of one table per version; each migration is a single step, which appends
/// exactly the migrated rows of the last generation, blocked and clean; and each call is one step with
/// its answer, each client's once and in its order.
pub fn rollouts_are_legal<A, O, F>()
    ensures { (r : Rollout A O F) (journal : List (Entry (Doc A) (Query F))) → IsRollout r → IsJournal (scenario_of r) journal →
        IsLegal r.words (named_version r.names) (scenario_of r) journal }
{}

/// Every such journal is a run of generations, entry by entry: each client is told what its own
/// version's generation tells, and the store shows the generations that the run ends with.
pub fn rollouts_are_runs<A, O, F>()
    ensures { (r : Rollout A O F) (journal : List (Entry (Doc A) (Query F))) → IsRollout r → IsJournal (scenario_of r) journal →
        (last : Generations (Doc A))
        × IsRun (scenario_of r).race (scenario_of r).current (named_version r.names) (found_at_opening (scenario_of r).opening) (opening_generations (scenario_of r).opening) journal last
        × AreShown (scenario_of r).sets last (trace_after (scenario_of r) journal).store }
{}

/// Whatever happens in a rollout: an instance that is done names its version's one target; a fatal cause
/// is one that can come; no instance writes documents into a target; and until a version's switch its
/// target is exactly the migrated table of the blocked source.
pub fn rollouts_race<A, O, F>()
    ensures { (r : Rollout A O F) (events : List Event) → IsRollout r →
        Raced (scenario_of r).race (scenario_of r).sets (IsEmptyOpening (scenario_of r).opening) (world_after (scenario_of r) events) }
{}

/// A start of an instance that ended as done names its version's one target, and a migration or an
/// install to it, of that version, stands among the facts.
pub fn done_has_its_fact<A, O, F>()
    ensures { (r : Rollout A O F) (journal : List (Entry (Doc A) (Query F))) → IsRollout r → IsJournal (scenario_of r) journal →
        (i : ℕ) (past : Past (Doc A) (Query F)) (tag : ℕ) (target : Text) → nth (trace_after (scenario_of r) journal).pasts i ≡ Some past → state_of tag past.runs ≡ Ended (End.Done target) →
        (target ≡ r.names.target (r.set_of i).registry.version)
        × HasFact (r.names.target (r.set_of i).registry.version) (r.names.text (r.set_of i).registry.version) (facts_of_journal (scenario_of r) (named_version r.names) journal) }
{}

/// Where a start ends as fatal at an entry, the store shows the cause at that moment.
pub fn causes_are_shown<A, O, F>()
    ensures { (r : Rollout A O F) (journal : List (Entry (Doc A) (Query F))) (e : Entry (Doc A) (Query F)) → IsRollout r → IsJournal (scenario_of r) (journal ++ e ∷ []) →
        (i : ℕ) (past : Past (Doc A) (Query F)) (cause : Cause) → e.actor ≡ Instance i → e.how ≡ Heard → nth (trace_after (scenario_of r) journal).pasts i ≡ Some past →
        moved ((scenario_of r).race.settings i) (state_of e.tag past.runs) e.reply ≡ Ended (Fatal cause) →
        IsShown (scenario_of r).race.select (scenario_of r).current ((scenario_of r).race.settings i) (trace_after (scenario_of r) journal).store (state_of e.tag past.runs) cause }
{}

/// No start looks again once it heard a reply, and each hears at most fourteen replies and two for each
/// page of a blocked generation of a version below, in pages of its own set.
pub fn starts_are_short<A, O, F>()
    ensures { (r : Rollout A O F) (journal : List (Entry (Doc A) (Query F))) → IsRollout r → IsJournal (scenario_of r) journal →
        AllShort (scenario_of r).race (λ i. pages_by (r.set_of i).batch) (scenario_of r).sets (trace_after (scenario_of r) journal) }
{}

/// A start that nothing stands against ends as done with its version's one target, within fourteen
/// replies and two for each page, of its own set's, of its blocked source: along every journal it is
/// done, or has a further request within that bound. Nothing stands against it where the current alias
/// named its version's target at its first entry; or named an index of a version not above, or nothing,
/// and since then no migration or install of another version was done, and at each of its own entries the
/// indices of its names have that source, no unknown, corrupt or newer document stands in it, and it is
/// clean once it is blocked.
pub fn unhindered_starts_end_as_done<A, O, F>()
    ensures { (r : Rollout A O F) (before after : List (Entry (Doc A) (Query F))) (first : Entry (Doc A) (Query F)) (i tag : ℕ) (past : Past (Doc A) (Query F)) →
        IsRollout r → IsJournal (scenario_of r) (before ++ first ∷ after) → BeginsUnhindered r before after first i tag →
        nth (trace_after (scenario_of r) (before ++ first ∷ after)).pasts i ≡ Some past →
        GoesWell (pages_by (r.set_of i).batch) ((scenario_of r).race.settings i) (trace_after (scenario_of r) (before ++ first ∷ after)).store (named_after r before) (heard_of tag past.runs) (state_of tag past.runs) }
{}

/// The same of a world, for the start of an instance none of whose sends failed: its machine is done with
/// its version's one target, or has a further request within the bound.
pub fn unhindered_machines_end_as_done<A, O, F>()
    ensures { (r : Rollout A O F) (events : List Event) (before after : List (Entry (Doc A) (Query F))) (first : Entry (Doc A) (Query F)) (i : ℕ) (node : Node (Doc A) (Query F)) (m : Machine (Doc A)) →
        IsRollout r → nth (world_after (scenario_of r) events).nodes i ≡ Some node → node.machine ≡ Some m → (HasFailed node.starts node.sent → ⊥) →
        (world_after (scenario_of r) events).journal ≡ before ++ first ∷ after → BeginsUnhindered r before after first i node.starts →
        (heard : ℕ) × GoesWell (pages_by (r.set_of i).batch) ((scenario_of r).race.settings i) (world_after (scenario_of r) events).store (named_after r before) heard m.state }
{}

/// Where every instance is of one version, above the opening's, a start fails by documents alone: it ends
/// with one of the causes UnknownObjects, CorruptObjects, NewerObjects and Collision, and in a store that
/// opened empty it never fails. So NewerIndex, OtherVersion and Leftover never come.
pub fn one_version_fails_by_documents<A, O, F>()
    ensures { (r : Rollout A O F) (set : TargetSet O) (journal : List (Entry (Doc A) (Query F))) → IsRollout r → IsOfOneSet r set → IsJournal (scenario_of r) journal →
        (i tag : ℕ) (past : Past (Doc A) (Query F)) (cause : Cause) → nth (trace_after (scenario_of r) journal).pasts i ≡ Some past → state_of tag past.runs ≡ Ended (Fatal cause) →
        IsByDocuments cause × (r.start ≢ Empty) }
{}

/// The same of every world.
pub fn worlds_of_one_version_fail_by_documents<A, O, F>()
    ensures { (r : Rollout A O F) (set : TargetSet O) (events : List Event) → IsRollout r → IsOfOneSet r set →
        (i : ℕ) (node : Node (Doc A) (Query F)) (m : Machine (Doc A)) (cause : Cause) → nth (world_after (scenario_of r) events).nodes i ≡ Some node → node.machine ≡ Some m → m.state ≡ Ended (Fatal cause) →
        IsByDocuments cause × (r.start ≢ Empty) }
{}

/// A version's check for unknown objects finds exactly the rows whose documents are of a type that its
/// registry neither knows nor removed, in their order.
pub fn check_finds_the_unknown<A, O, F>()
    ensures { (words : Words A O F) (names : Named) (set : TargetSet O) (rows : Rows (Doc A)) →
        map (λ row. row.0) ((select words.holds).rows (settings_of words names set).unknown rows) ≡ raws_where (λ raw doc. is_unknown (outcome words.transforms set.registry raw doc)) rows }
{}

/// The product's names of the current alias, of version aliases, targets and temporary indices are apart
/// for all versions of a rollout, and a target's name tells its version.
pub fn product_names_are_apart<A, O, F>()
    ensures { (words : Words A O F) (names : Named) (sets : List (TargetSet O)) → HasProductNames words names sets → NamesApart words names sets }
{}
