//! The laws of the plans and the meaning of object calls: one thread, two moments, and what clients ask.
#![tactic(auto)]

ghost use Rattle.std.specs.Prelude.{◌≡◌, Some};
ghost use Rattle.base_model.specs.Keyed.{Text, at};
ghost use Rattle.race_model.specs.Stores.{Store, Request, Reply};
ghost use Rattle.race_model.specs.Generations.{Generation};
ghost use Rattle.document_model.specs.Documents.{Doc};
ghost use Rattle.document_model.specs.Registries.{Registry};
ghost use Rattle.query_model.specs.declared.parts.Target.{Target};
ghost use Rattle.query_model.specs.Queries.{Query};
ghost use Rattle.call_model.specs.Words.{Words};
ghost use Rattle.call_model.specs.Calls.{Call};
ghost use Rattle.call_model.specs.Calls.Call.{Resolving};
ghost use Rattle.call_model.specs.Steps.{alias_of, alias_target, called, call_step};
ghost use Rattle.call_model.specs.Scripts.{Script, clients, with_table, performed};
ghost use Rattle.call_laws.specs.Meanings.{then_on, Shows, KeepsAliases, HeardFresh, AsksOnly, WritesFresh};

/// A call whose first and last request meet one generation is the step of one thread on its table:
/// the same answer, and the same table after it.
pub fn one_moment_is_one_thread<A, O, F>()
    ensures answer { (w : Words A O F) (reg : Registry O) (g : Generation (Doc A)) (call : Call A) →
        (called w reg call (Some g) (Some g)).1 ≡ (call_step w reg g.blocked g.table call).1 }
    ensures table { (w : Words A O F) (reg : Registry O) (g : Generation (Doc A)) (call : Call A) →
        then_on (called w reg call (Some g) (Some g)).0 g.table ≡ then_on (call_step w reg g.blocked g.table call).0 g.table }
{}

/// On a store that nobody else writes, a call's requests and its answer are the step of one thread on
/// the table of its version's index, and the index then has the table of that step.
pub fn performed_is_one_thread<A, O, F>()
    ensures answer { (w : Words A O F) (reg : Registry O) (g : Generation (Doc A)) (st : Store (Doc A)) (call : Call A) →
        Shows st g → g.alias ≡ w.version_alias reg.version →
        (performed w reg st call).1 ≡ (call_step w reg g.blocked g.table call).1 }
    ensures table { (w : Words A O F) (reg : Registry O) (g : Generation (Doc A)) (st : Store (Doc A)) (call : Call A) →
        Shows st g → g.alias ≡ w.version_alias reg.version →
        Shows (performed w reg st call).0 (with_table g (then_on (call_step w reg g.blocked g.table call).0 g.table)) }
{}

/// However late its last request, a resolve that was shown an alias is the step of one thread on the
/// table that this request meets, where alias documents stay: it is never busy.
pub fn resolve_is_one_step<A, O, F>()
    ensures { (w : Words A O F) (reg : Registry O) (space : Text) (q goal : Target) (seen now : Generation (Doc A)) →
        alias_target w (at (alias_of space q) seen.table.rows) ≡ Some goal → KeepsAliases seen.table now.table →
        called w reg (Resolving space q) (Some seen) (Some now) ≡ call_step w reg now.blocked now.table (Resolving space q) }
{}

/// A client asks nothing but reads and bulks of its own version's alias; and where it was shown
/// up-to-date documents, it writes up-to-date ones, and goes on so.
pub fn clients_stay_apart<A, O, F>()
    ensures own_alias { (w : Words A O F) (c : Script A O) (ask : Request (Doc A) (Query F)) →
        (clients w).asks c ≡ Some ask → AsksOnly (w.version_alias c.registry.version) ask }
    ensures fresh_writes { (w : Words A O F) (c : Script A O) (ask : Request (Doc A) (Query F)) →
        (clients w).asks c ≡ Some ask → HeardFresh c.registry c.heard → WritesFresh {F = F} c.registry ask }
    ensures registry { (w : Words A O F) (c : Script A O) (reply : Reply (Doc A)) → ((clients w).told c reply).registry ≡ c.registry }
    ensures heard { (w : Words A O F) (c : Script A O) (ask : Request (Doc A) (Query F)) (reply : Reply (Doc A)) →
        (clients w).asks c ≡ Some ask → HeardFresh c.registry (Some reply) → HeardFresh c.registry ((clients w).told c reply).heard }
{}
