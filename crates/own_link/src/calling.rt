ghost use Rattle.std.specs.Prelude.{◌≡◌, ◌<◌, ◌≤◌, ◌+◌, ℕ, Bool, List, [], Option, length, Ok, Err, IfOk, IfErr, OnOk};
ghost use Rattle.base_model.specs.Keyed.{Text as Bytes, at};
ghost use Rattle.race_model.specs.Generations.{Generation};
ghost use Rattle.document_model.specs.Documents.{Doc as Document};
ghost use Rattle.so_js.specs.declared.js.Js.{Js};
ghost use Rattle.call_model.specs.Calls.{NewObject as ModelObject, One as ModelOne};
ghost use Rattle.call_model.specs.Calls.Answer.{Each, Refused};
ghost use Rattle.call_model.specs.declared.refuse.Refuse.{Refuse};
ghost use Rattle.call_model.specs.Calls.Call.{BulkCreating};
ghost use Rattle.call_model.specs.Scripts.{performed};
ghost use Rattle.call_effects.specs.Effects.{RefusedAt};
ghost use Rattle.call_words.specs.Limits.{HasFewObjects};
ghost use Rattle.call_words.specs.Mapped.{call_of};
ghost use Rattle.call_words.specs.Product.{product_words};
ghost use Rattle.call_words.specs.Told.{answer_with_token};
ghost use Rattle.object_repo.specs.Performing.{Performs};
ghost use Rattle.own_link.specs.Calling.{Holds, step_on, stepped, requests_on, room};

use crate::link::OwnLink;
use call_effects::refused_changes_nothing;
use call_laws::{one_moment_is_one_thread, performed_is_one_thread};
use call_words::{Answer, Call};
use object_repo::perform;
use plain_data::Text;
use so_js::Js;
use std::alloc::Global;
use store_words::LinkError;
use transform_ops::Op;
use type_registry::Registry;

/// Makes a call on a store that holds a generation of the registry's version, under this tag: one
/// step of one thread on that generation, with its answer. The journal grows by exactly the requests
/// of the call's plan, heard under this tag. What is refused changes no object: a refused call leaves
/// the generation as it was, and a bulk leaves the row of each refused item.
///
/// `JournalFull` with the limit exactly where the journal has room for fewer entries than the call
/// makes requests, unless memory runs out before; `Memory` where memory ran out. It is never answered
/// `Fault`.
pub fn call_on(
    alloc: Global,
    reg: &Registry,
    call: &Call,
    tag: u64,
    link: &mut OwnLink,
) -> Result<Answer, LinkError>
    requires { HasFewObjects call.now }
    ensures answer { (g : Generation (Document Js)) → Holds reg.now link.old.core.store g → IfOk result (λ answer. answer ≡ answer_with_token (step_on reg.now g (call_of call.now)).1) }
    ensures store { OnOk result (link.new.core.store ≡ (performed product_words reg.now link.old.core.store (call_of call.now)).0) }
    ensures table { (g : Generation (Document Js)) → Holds reg.now link.old.core.store g → OnOk result (Holds reg.now link.new.core.store (stepped reg.now g (call_of call.now))) }
    ensures refused { (g : Generation (Document Js)) (why : Refuse) → Holds reg.now link.old.core.store g → result ≡ Ok (answer_with_token (Refused why)) → Holds reg.now link.new.core.store g }
    ensures refused_items { (g : Generation (Document Js)) (space raw : Bytes) (objects : List (ModelObject Js)) (overwrite : Bool) (time : Option Bytes) (ones : List (ModelOne Js)) → Holds reg.now link.old.core.store g → call_of call.now ≡ BulkCreating space objects overwrite time → result ≡ Ok (answer_with_token (Each ones)) → RefusedAt reg.now space raw objects ones → at raw (stepped reg.now g (call_of call.now)).table.rows ≡ at raw g.table.rows }
    ensures entries { IfOk result (λ answer. Performs reg.now (call_of call.now) [] tag link.old.core.journal link.new.core.journal answer) }
    ensures requests { OnOk result (length link.new.core.journal ≡ length link.old.core.journal + requests_on reg.now link.old.core.store (call_of call.now)) }
    ensures fits { OnOk result (requests_on reg.now link.old.core.store (call_of call.now) ≤ room link.old.core) }
    ensures origin { (link.new.core.opening ≡ link.old.core.opening) × (link.new.core.limit ≡ link.old.core.limit) }
    ensures full { (n : ℕ) → result ≡ Err (LinkError.JournalFull n) → (n ≡ link.old.core.limit) × (room link.old.core < requests_on reg.now link.old.core.store (call_of call.now)) }
    ensures no_fault { IfErr result (λ e. e ≡ LinkError.Fault → ⊥) }
{
    performed_is_one_thread::<Js, Op, Text>();
    one_moment_is_one_thread::<Js, Op, Text>();
    refused_changes_nothing::<Js, Op, Text>();
    performed_on(alloc, reg, call, tag, link)
}

/// Makes a call on a store: exactly what it performs there, by the definitions.
fn performed_on(
    alloc: Global,
    reg: &Registry,
    call: &Call,
    tag: u64,
    link: &mut OwnLink,
) -> Result<Answer, LinkError>
    requires { HasFewObjects call.now }
    ensures answer { IfOk result (λ answer. answer ≡ answer_with_token (performed product_words reg.now link.old.core.store (call_of call.now)).1) }
    ensures store { OnOk result (link.new.core.store ≡ (performed product_words reg.now link.old.core.store (call_of call.now)).0) }
    ensures entries { IfOk result (λ answer. Performs reg.now (call_of call.now) [] tag link.old.core.journal link.new.core.journal answer) }
    ensures requests { OnOk result (length link.new.core.journal ≡ length link.old.core.journal + requests_on reg.now link.old.core.store (call_of call.now)) }
    ensures fits { OnOk result (requests_on reg.now link.old.core.store (call_of call.now) ≤ room link.old.core) }
    ensures origin { (link.new.core.opening ≡ link.old.core.opening) × (link.new.core.limit ≡ link.old.core.limit) }
    ensures full { (n : ℕ) → result ≡ Err (LinkError.JournalFull n) → (n ≡ link.old.core.limit) × (room link.old.core < requests_on reg.now link.old.core.store (call_of call.now)) }
    ensures no_fault { IfErr result (λ e. e ≡ LinkError.Fault → ⊥) }
{
    link.stands();
    let made = perform(alloc, reg, call, tag, link);
    link.stands();
    made
}
