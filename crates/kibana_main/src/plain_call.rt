ghost use Rattle.std.specs.Prelude.{◌≡◌, ◌≤◌, length, Err, IfOk, IfSome, false};
ghost use Rattle.wire_io.specs.Causes.{Rose};
ghost use Rattle.call_words.specs.Limits.{HasFewObjects};
ghost use Rattle.doc_table.specs.RowLists.{Each};
ghost use Rattle.scenario.specs.Scenario.{FaultIsFirst};
ghost use Rattle.kibana_main.specs.Output.{is_apply_words, scenario_outcome, outcome_of, usage_outcome, Ends, Spends, IsCertain};

use crate::running::run;
use crate::status::Status;
use plain_data::{List, Text};
use report::fault_line;
use scenario::{Scenario, ScenarioError, read_scenario};
use std::alloc::{AllocError, Global};
use wire_io::{InputFault, Sink, Source, write_all_of};

/// How a run is to end, and what it is to write.
#[derive(Debug, Drop)]
pub(crate) struct Outcome {
    pub(crate) status: Status,
    pub(crate) text: List<u8>,
}

/// Why no outcome is known.
#[derive(Clone, Copy, Debug, PartialEq, Eq)]
enum Unknown {
    Memory,
    ReadFault,
}

impl From<AllocError> for Unknown {
    ghost use Rattle.std.specs.Prelude.{◌≡◌};
    ghost use Rattle.kibana_main.specs.declared.plain_call.Unknown.TheVariants.{Memory};

    ghost from_gives = { λ _ e. e ≡ Memory };

    fn from(_refused: AllocError) -> Unknown {
        Unknown::Memory
    }
}

/// Runs the command that the words name over the bytes of the source, and writes its output to the
/// sink. The whole input is read and checked before anything is done or written.
pub fn plain<S: Source, K: Sink>(
    alloc: Global,
    words: &List<Text>,
    source: &mut S,
    sink: &mut K,
) -> Status
    // The words and the input say the status and what is written. Want of memory or a fault may cut it short.
    ensures told { IfSome (S.left source.old) (λ input.
        Ends (outcome_of words.now input) (K.held sink.old) (K.held sink.new) result) }

    // Words that name no command are told at once.
    ensures usage { is_apply_words words.now ≡ false
        → Ends usage_outcome (K.held sink.old) (K.held sink.new) result }

    // At Ok and JournalFull the input was read to its end.
    ensures spent { result ≡ Status.Ok → Spends (S.left source.old) (S.left source.new) }
    ensures spent_full { result ≡ Status.JournalFull → Spends (S.left source.old) (S.left source.new) }
    ensures read { S.faults source.old ≤ S.faults source.new }
    ensures read_fault { result ≡ Status.ReadFault → Rose (S.faults source.old) (S.faults source.new) }

    // A refused line or a passed limit that stands before the fault would have been answered.
    ensures read_fault_first { result ≡ Status.ReadFault → FaultIsFirst (S.left source.old) (S.left source.new) }
    ensures write { K.faults sink.old ≤ K.faults sink.new }
    ensures write_fault { result ≡ Status.WriteFault → Rose (K.faults sink.old) (K.faults sink.new) }
{
    match judge(alloc, words, source) {
        Ok(outcome) => match write_all_of(sink, outcome.text.as_slice()) {
            Ok(()) => outcome.status,
            Err(_) => Status::WriteFault,
        },
        Err(Unknown::Memory) => Status::Memory,
        Err(Unknown::ReadFault) => Status::ReadFault,
    }
}

fn judge<S: Source>(alloc: Global, words: &List<Text>, source: &mut S) -> Result<Outcome, Unknown>
    ensures told { IfSome (S.left source.old) (λ input. IfOk result (λ o. o ≡ outcome_of words.now input)) }
    ensures usage { is_apply_words words.now ≡ false → IfOk result (λ o. o ≡ usage_outcome) }
    ensures certain { IfOk result (λ o. IsCertain o.status) }
    ensures spent { IfOk result (λ o. o.status ≡ Status.Ok → Spends (S.left source.old) (S.left source.new)) }
    ensures spent_full { IfOk result (λ o. o.status ≡ Status.JournalFull → Spends (S.left source.old) (S.left source.new)) }
    ensures known { is_apply_words words.now ≡ false → result ≡ Err Unknown.ReadFault → ⊥ }
    ensures later { S.faults source.old ≤ S.faults source.new }
    ensures fault { result ≡ Err Unknown.ReadFault → Rose (S.faults source.old) (S.faults source.new) }
    ensures fault_first { result ≡ Err Unknown.ReadFault → FaultIsFirst (S.left source.old) (S.left source.new) }
{
    if !is_apply(words) {
        let outcome = usage(alloc)?;
        return Ok(outcome);
    }
    match read_scenario(alloc, source) {
        Ok(scenario) => {
            let outcome = output(alloc, &scenario)?;
            Ok(outcome)
        }
        Err(ScenarioError::Memory) => Err(Unknown::Memory),
        Err(ScenarioError::ReadFault) => Err(Unknown::ReadFault),
        Err(ScenarioError::BadInput { line, kind }) => Ok(Outcome {
            status: Status::BadInput { line, kind },
            text: fault_line(alloc, InputFault::BadInput { line, kind })?,
        }),
        Err(ScenarioError::Limit(which)) => Ok(Outcome {
            status: Status::Limit(which),
            text: fault_line(alloc, InputFault::Limit(which))?,
        }),
    }
}

fn is_apply(words: &List<Text>) -> bool
    ensures { result ≡ is_apply_words words.now }
{
    match words.as_slice() {
        [word] => word.as_str() == "apply",
        _ => false,
    }
}

fn usage(alloc: Global) -> Result<Outcome, AllocError>
    ensures { IfOk result (λ o. o ≡ usage_outcome) }
{
    Ok(Outcome {
        status: Status::Usage,
        text: fault_line(alloc, InputFault::Usage)?,
    })
}

/// What becomes of a scenario.
fn output(alloc: Global, scenario: &Scenario) -> Result<Outcome, AllocError>
    requires rows { length scenario.now.table.rows ≤ 26214400 }
    requires objects { Each (λ a. HasFewObjects a.call) scenario.now.asks }
    ensures { IfOk result (λ o. o ≡ scenario_outcome scenario.now) }
{
    match &scenario.registry {
        None => Ok(Outcome {
            status: Status::Ok,
            text: List::new(alloc),
        }),
        Some(registry) => run(alloc, registry, &scenario.table, &scenario.asks),
    }
}
