//! The laws of object calls along histories of generations: plans are calls, a resolve is never busy,
//! and every run that conforms is legal.
#![tactic(auto)]

ghost use Rattle.std.specs.Prelude.{◌≡◌, ◌≢◌, ℕ, Bool, List, Option, Some};
ghost use Rattle.base_model.specs.Keyed.{Text, at};
ghost use Rattle.race_model.specs.Machines.{Settings};
ghost use Rattle.race_model.specs.Generations.{Generation, Generations, Move, of_alias};
ghost use Rattle.race_model.specs.Worlds.{Entry, nth};
ghost use Rattle.race_model.specs.Journals.{Has};
ghost use Rattle.race_model.specs.Runs.{IsRun};
ghost use Rattle.race_model.specs.Openings.{Opening, opening_generations, found_at_opening, IsJournal};
ghost use Rattle.document_model.specs.Documents.{Doc};
ghost use Rattle.document_model.specs.Registries.{Registry};
ghost use Rattle.query_model.specs.declared.parts.Target.{Target};
ghost use Rattle.query_model.specs.Queries.{Query};
ghost use Rattle.call_model.specs.Words.{Words};
ghost use Rattle.call_model.specs.Calls.{NewObject, Act, One};
ghost use Rattle.call_model.specs.Acts.{raw_of, target_of};
ghost use Rattle.call_model.specs.Calls.Call.{Changing, BulkCreating, Resolving};
ghost use Rattle.call_model.specs.Calls.Answer.{Each, Refused};
ghost use Rattle.call_model.specs.declared.refuse.Refuse.TheVariants.{Busy};
ghost use Rattle.call_model.specs.Steps.{alias_of, alias_target, called, call_step};
ghost use Rattle.call_model.specs.Scripts.{Script};
ghost use Rattle.call_model.specs.Upgrades.{call_race};
ghost use Rattle.call_model.specs.History.{IsLegal};
ghost use Rattle.call_history.specs.Plans.{Path, Reaches, Plans};
ghost use Rattle.call_history.specs.Claims.{AreNumbered, AreFresh, Untouched, NeverBusyAt, scenario};

/// On all generations that an opening may become, of any number of versions, a call makes one request,
/// which decides it, or reads and then makes one more, which decides it however much later: with the
/// answer and the generations that the call means on those at its first request and those at its last.
/// The opening may be empty; where it isn't, its tables are numbered.
pub fn plans_are_calls<A, O, F>()
    ensures { (w : Words A O F) (settings : ℕ → Settings (Doc A) (Query F)) (opening : Generations (Doc A)) →
        AreNumbered opening → Plans {O = O} w settings opening }
{}

/// A resolve that was shown an alias is, whatever moves were made until its last request, the step of
/// one thread on the table that this request meets, and no resolve of one thread is busy.
pub fn resolve_is_never_busy<A, O, F>()
    ensures one_step { (w : Words A O F) (settings : ℕ → Settings (Doc A) (Query F)) (reg : Registry O) (space : Text) (q goal : Target) (gs later : Generations (Doc A)) (seen now : Generation (Doc A)) →
        Reaches settings gs later → of_alias (w.version_alias reg.version) gs ≡ Some seen → of_alias (w.version_alias reg.version) later ≡ Some now →
        alias_target w (at (alias_of space q) seen.table.rows) ≡ Some goal →
        called w reg (Resolving space q) (Some seen) (Some now) ≡ call_step w reg now.blocked now.table (Resolving space q) }
    ensures not_busy { (w : Words A O F) (reg : Registry O) (space : Text) (q : Target) (now : Generation (Doc A)) (a b : Option ℕ) →
        (call_step w reg now.blocked now.table (Resolving space q)).1 ≢ Refused (Busy a b) }
{}

/// A change, or an item of a bulk, is busy only where somebody wrote its raw id under its version's alias
/// between the call's two requests.
pub fn busy_is_contended<A, O, F>()
    ensures change { (w : Words A O F) (settings : ℕ → Settings (Doc A) (Query F)) (reg : Registry O) (space : Text) (act : Act A) (moves : List (Move (Doc A) (Query F))) (gs later : Generations (Doc A)) (seen now : Generation (Doc A)) (a b : Option ℕ) →
        Path settings gs moves later → of_alias (w.version_alias reg.version) gs ≡ Some seen → of_alias (w.version_alias reg.version) later ≡ Some now →
        Untouched (w.version_alias reg.version) (raw_of reg space (target_of act)) moves → (called w reg (Changing space act) (Some seen) (Some now)).1 ≢ Refused (Busy a b) }
    ensures item { (w : Words A O F) (settings : ℕ → Settings (Doc A) (Query F)) (reg : Registry O) (space raw : Text) (objects : List (NewObject A)) (overwrite : Bool) (time : Option Text) (answers : List (One A))
        (moves : List (Move (Doc A) (Query F))) (gs later : Generations (Doc A)) (seen now : Generation (Doc A)) →
        Path settings gs moves later → of_alias (w.version_alias reg.version) gs ≡ Some seen → of_alias (w.version_alias reg.version) later ≡ Some now →
        Untouched (w.version_alias reg.version) raw moves → (called w reg (BulkCreating space objects overwrite time) (Some seen) (Some now)).1 ≡ Each answers → NeverBusyAt reg space raw objects answers }
{}

/// Every journal that conforms and is a run of generations is legal: its facts, by playing the aliases
/// and by the plans of its clients, are a run, and each call is one step of it, with its answer.
pub fn runs_are_legal<A, O, F>()
    ensures { (w : Words A O F) (settings : ℕ → Settings (Doc A) (Query F)) (sets : List (Settings (Doc A) (Query F))) (version_in : Text → Option Text) (current : Text) (opening : Opening (Doc A) (Query F)) (instances : ℕ) (scripts : List (Script A O))
        (journal : List (Entry (Doc A) (Query F))) (last : Generations (Doc A)) →
        ((i : ℕ) → Has (settings i) sets) → ((i : ℕ) → (text : Text) × (version_in (settings i).target ≡ Some text)) → AreNumbered (opening_generations opening) → AreFresh scripts →
        IsRun (call_race {O = O} w settings) current version_in (found_at_opening opening) (opening_generations opening) journal last →
        IsJournal (scenario w settings sets current opening instances scripts) journal →
        IsLegal w version_in (scenario w settings sets current opening instances scripts) journal }
{}
