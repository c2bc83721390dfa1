ghost use Rattle.std.specs.Prelude.{◌≡◌, ◌<◌, ◌-◌, ◌^◌, ◌++◌, true, false, nat_le, length, IfOk};
ghost use Rattle.race_model.specs.Stores.{Table};
ghost use Rattle.document_model.specs.Documents.{Doc as Document};
ghost use Rattle.so_js.specs.declared.js.Js.{Js};
ghost use Rattle.call_model.specs.Scripts.{performed};
ghost use Rattle.call_words.specs.Limits.{HasFewObjects};
ghost use Rattle.call_words.specs.Mapped.{call_of};
ghost use Rattle.call_words.specs.Product.{product_words};
ghost use Rattle.doc_table.specs.RowLists.{Each};
ghost use Rattle.own_link.specs.Calling.{Holds, requests_on, room};
ghost use Rattle.kibana_main.specs.Output.{outcome_on};
ghost use Rattle.kibana_main.specs.Running.{opening_store, journal_limit, within, generation_of, line_on, table_after};

use crate::opening::open;
use crate::plain_call::Outcome;
use crate::status::Status;
use doc_table::DocTable;
use own_link::{OwnLink, call_on};
use plain_data::List;
use report::{AnswerAt, answer_line};
use scenario::ApplyAsk;
use std::alloc::{AllocError, Global};
use store_words::LinkError;
use type_registry::Registry;

/// Makes the calls of an input one after another on its documents, until the journal is full: the
/// lines of their answers, and whether all were made; or want of memory.
pub fn run(
    alloc: Global,
    reg: &Registry,
    table: &DocTable,
    asks: &List<ApplyAsk>,
) -> Result<Outcome, AllocError>
    requires rows { length table.now.rows < 2 ^ 62 }
    requires objects { Each (λ a. HasFewObjects a.call) asks.now }
    ensures { IfOk result (λ o. o ≡ outcome_on reg.now table.now (within journal_limit reg.now (opening_store reg.now table.now) asks.now) asks.now) }
{
    let mut link = open(alloc, reg, table)?;
    let mut lines = List::new(alloc);
    let mut tag = 0u64;
    for ask in asks.as_slice() {
        tag = tag.saturating_add(1);
        let made = make_call(alloc, reg, ask, tag, &mut link, &mut lines)?;
        if !made {
            return Ok(Outcome {
                status: Status::JournalFull,
                text: lines,
            });
        }
    }
    Ok(Outcome {
        status: Status::Ok,
        text: lines,
    })
}

/// Makes a call and adds the line of its answer; or want of memory. `false` where the journal has no
/// room for the call's requests: then no line is added.
fn make_call(
    alloc: Global,
    reg: &Registry,
    ask: &ApplyAsk,
    tag: u64,
    link: &mut OwnLink,
    lines: &mut List<u8>,
) -> Result<bool, AllocError>
    requires { HasFewObjects ask.now.call }
    ensures made { IfOk result (λ made. made ≡ nat_le (requests_on reg.now link.old.core.store (call_of ask.now.call)) (room link.old.core)) }
    ensures store { IfOk result (λ made. made ≡ true → link.new.core.store ≡ (performed product_words reg.now link.old.core.store (call_of ask.now.call)).0) }
    ensures room { IfOk result (λ made. made ≡ true → room link.new.core ≡ room link.old.core - requests_on reg.now link.old.core.store (call_of ask.now.call)) }
    ensures table { (t : Table (Document Js)) → Holds reg.now link.old.core.store (generation_of reg.now t) → IfOk result (λ made. made ≡ true → Holds reg.now link.new.core.store (generation_of reg.now (table_after reg.now t ask.now))) }
    ensures line { (t : Table (Document Js)) → Holds reg.now link.old.core.store (generation_of reg.now t) → IfOk result (λ made. made ≡ true → lines.new ≡ lines.old ++ line_on reg.now t ask.now) }
    ensures full { IfOk result (λ made. made ≡ false → lines.new ≡ lines.old) }
{
    match call_on(alloc, reg, &ask.call, tag, link) {
        Ok(answer) => {
            // A journal never has more entries than its limit.
            let _entries = link.core().journal();
            let line = answer_line(alloc, &AnswerAt::Input(ask.at), answer)?;
            lines.extend_from_slice(line.as_slice())?;
            Ok(true)
        }
        Err(LinkError::JournalFull(_)) => Ok(false),
        Err(_) => Err(AllocError),
    }
}
