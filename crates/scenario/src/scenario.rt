ghost use Rattle.std.specs.Prelude.{◌≡◌, ◌≤◌, ◌<◌, ◌+◌, ◌^◌, [], None, Err, is_some, length, true, IfOk};
ghost use Rattle.std.specs.Io.KnownBytes.{prepend_known, IsAtEnd};
ghost use Rattle.base_model.specs.Keyed.{at};
ghost use Rattle.wire_io.specs.Causes.{Rose};
ghost use Rattle.so_js.specs.Tree.{is_sound};
ghost use Rattle.call_words.specs.Limits.{HasFewObjects};
ghost use Rattle.doc_table.specs.RowLists.{Each};
ghost use Rattle.call_lines.specs.Reading.{Gives};
ghost use Rattle.scenario.specs.Scenario.{placed, with_line, with_tree, with_placed, with_kind, with_registry, with_doc_line, with_doc, with_call, TakesLine, ReadsScenario, FaultIsFirst};

use crate::line_kind::LineKind;
use crate::members::{has_other_than, line_word};
use crate::reading::{needed_doc, needed_raw, read_call_line, read_registry, read_tree};
use call_lines::LineError;
use call_words::Call;
use doc_table::DocTable;
use plain_data::{List, Text};
use saved_doc::{Doc, SharedDoc};
use so_js::Js;
use std::alloc::{AllocError, Global};
use type_registry::Registry;
use wire_io::{InputKind, Line, Lines, ReadError, Source, Which, read_line};

/// A call, and the number of its line, counted from 1.
#[derive(Debug, Drop)]
pub struct ApplyAsk {
    pub at: u64,
    pub call: Call,
}

/// What an input of `apply` says: its registry, where it has one, its documents under their raw
/// ids, numbered in the order of the input, and its calls in their order.
#[derive(Debug, Drop)]
pub struct Scenario {
    pub registry: Option<Registry>,
    pub table: DocTable,
    pub asks: List<ApplyAsk>,
}

/// Why an input was not read.
#[derive(Clone, Copy, Debug, PartialEq, Eq)]
pub enum ScenarioError {
    /// Memory ran out.
    Memory,
    /// The line of this number, counted from 1, is the first that is refused.
    BadInput { line: u64, kind: InputKind },
    /// The source failed before any refusal.
    ReadFault,
    /// A limit is passed before any line is refused.
    Limit(Which),
}

impl From<ReadError> for ScenarioError {
    ghost use Rattle.std.specs.Prelude.{◌≡◌};
    ghost use Rattle.scenario.specs.Scenario.{of_read};

    ghost from_gives = { λ r e. e ≡ of_read r };

    fn from(refused: ReadError) -> ScenarioError {
        match refused {
            ReadError::Memory => ScenarioError::Memory,
            ReadError::ReadFault => ScenarioError::ReadFault,
            ReadError::LineTooLong => ScenarioError::Limit(Which::Line),
            ReadError::InputTooLong => ScenarioError::Limit(Which::Input),
        }
    }
}

/// Reads the whole input of `apply`. Empty lines are counted and say nothing.
///
/// `BadInput` with the number and the first cause of the first line that is refused; `ReadFault`
/// and `Limit` where they stand before such a line; `Memory` at any place. The causes of one line
/// are tested in this order:
/// - `BadJson`; `TooDeep` where it nests more than 64 deep; `Fraction`; `NotObject`;
///   `MissingField` and `WrongKind` of its member `line`; `UnknownLine`.
/// - `NotBuilt` of a line `import`, `resolveImport` or `export`, which are not read yet.
/// - `Unplaced` of a line that `apply` doesn't have, of a doc or a call with no registry before it,
///   and of a doc after a call.
/// - Of a registry: the refusals of `Registry::read`, and then `DuplicateRegistry` where there is
///   one.
/// - Of a doc: `MissingField` and `WrongKind` of `raw`, and `BadId` where it is empty;
///   `MissingField` of `doc` and the refusals of `from_js`; `DuplicateDoc` where a document has this
///   raw id; and last `UnknownField`.
/// - Of a call: `MissingField` of `call` and the refusals of `read_call`; and last `UnknownField`.
pub fn read_scenario<S: Source>(alloc: Global, source: &mut S) -> Result<Scenario, ScenarioError>
    ensures told { ReadsScenario (S.left source.old) (S.left source.new) result }
    ensures later { S.faults source.old ≤ S.faults source.new }
    ensures fault { result ≡ Err ScenarioError.ReadFault → Rose (S.faults source.old) (S.faults source.new) }
    ensures fault_first { result ≡ Err ScenarioError.ReadFault → FaultIsFirst (S.left source.old) (S.left source.new) }
    ensures few { IfOk result (λ s. length s.table.rows ≤ 26214400) }
    ensures few_objects { IfOk result (λ s. Each (λ a. HasFewObjects a.call) s.asks) }
{
    let mut lines = Lines::new(alloc);
    let mut scenario = Scenario {
        registry: None,
        table: DocTable::empty(alloc),
        asks: List::new(alloc),
    };
    let mut at = 0;
    loop {
        match read_line(&mut lines, source)? {
            Line::Text(line) => {
                at += 1;
                scenario = take_numbered(alloc, scenario, at, line.as_slice())?;
            }
            Line::End => return Ok(scenario),
        }
    }
}

/// The scenario with one line more; a refusal has the line's number.
fn take_numbered(
    alloc: Global,
    scenario: Scenario,
    at: u64,
    line: &[u8],
) -> Result<Scenario, ScenarioError>
    requires { scenario.table.next < 2 ^ 63 }
    ensures exact { TakesLine result (placed at (with_line scenario at line.now)) }
    ensures next { IfOk result (λ s. s.table.next ≤ scenario.table.next + 1) }
    ensures rows { IfOk result (λ s. length s.table.rows ≤ length scenario.table.rows + 1) }
    ensures few_objects { Each (λ a. HasFewObjects a.call) scenario.asks → IfOk result (λ s. Each (λ a. HasFewObjects a.call) s.asks) }
{
    match take_line(alloc, scenario, at, line) {
        Ok(scenario) => Ok(scenario),
        Err(LineError::Memory) => Err(ScenarioError::Memory),
        Err(LineError::Refused(kind)) => Err(ScenarioError::BadInput { line: at, kind }),
    }
}

fn take_line(alloc: Global, scenario: Scenario, at: u64, line: &[u8]) -> Result<Scenario, LineError>
    requires { scenario.table.next < 2 ^ 63 }
    ensures exact { Gives result (with_line scenario at line.now) }
    ensures next { IfOk result (λ s. s.table.next ≤ scenario.table.next + 1) }
    ensures rows { IfOk result (λ s. length s.table.rows ≤ length scenario.table.rows + 1) }
    ensures few_objects { Each (λ a. HasFewObjects a.call) scenario.asks → IfOk result (λ s. Each (λ a. HasFewObjects a.call) s.asks) }
{
    if line.is_empty() {
        return Ok(scenario);
    }
    let js = read_tree(alloc, line)?;
    let scenario = take_tree(alloc, scenario, at, &js)?;
    Ok(scenario)
}

fn take_tree(alloc: Global, scenario: Scenario, at: u64, js: &Js) -> Result<Scenario, LineError>
    requires sound { is_sound js.now ≡ true }
    requires few { scenario.table.next < 2 ^ 63 }
    ensures exact { Gives result (with_tree scenario at js.now) }
    ensures next { IfOk result (λ s. s.table.next ≤ scenario.table.next + 1) }
    ensures rows { IfOk result (λ s. length s.table.rows ≤ length scenario.table.rows + 1) }
    ensures few_objects { Each (λ a. HasFewObjects a.call) scenario.asks → IfOk result (λ s. Each (λ a. HasFewObjects a.call) s.asks) }
{
    if !matches!(js, Js::Object(_)) {
        return Err(LineError::Refused(InputKind::NotObject));
    }
    let kind = LineKind::read(line_word(js)?)?;
    take_placed(alloc, scenario, at, kind, js)
}

/// The scenario with a line of this kind more, where it may stand here.
fn take_placed(
    alloc: Global,
    scenario: Scenario,
    at: u64,
    kind: LineKind,
    js: &Js,
) -> Result<Scenario, LineError>
    requires sound { is_sound js.now ≡ true }
    requires few { scenario.table.next < 2 ^ 63 }
    ensures exact { Gives result (with_placed scenario at kind js.now) }
    ensures next { IfOk result (λ s. s.table.next ≤ scenario.table.next + 1) }
    ensures rows { IfOk result (λ s. length s.table.rows ≤ length scenario.table.rows + 1) }
    ensures few_objects { Each (λ a. HasFewObjects a.call) scenario.asks → IfOk result (λ s. Each (λ a. HasFewObjects a.call) s.asks) }
{
    if kind.is_unbuilt() {
        return Err(LineError::Refused(InputKind::NotBuilt));
    }
    if !kind.stands_in_apply(scenario.registry.is_some(), !scenario.asks.is_empty()) {
        return Err(LineError::Refused(InputKind::Unplaced));
    }
    take_kind(alloc, scenario, at, kind, js)
}

fn take_kind(
    alloc: Global,
    scenario: Scenario,
    at: u64,
    kind: LineKind,
    js: &Js,
) -> Result<Scenario, LineError>
    requires sound { is_sound js.now ≡ true }
    requires few { scenario.table.next < 2 ^ 63 }
    ensures exact { Gives result (with_kind scenario at kind js.now) }
    ensures next { IfOk result (λ s. s.table.next ≤ scenario.table.next + 1) }
    ensures rows { IfOk result (λ s. length s.table.rows ≤ length scenario.table.rows + 1) }
    ensures few_objects { Each (λ a. HasFewObjects a.call) scenario.asks → IfOk result (λ s. Each (λ a. HasFewObjects a.call) s.asks) }
{
    match kind {
        LineKind::Registry => {
            let registry = read_registry(alloc, js)?;
            let scenario = with_registry(scenario, registry)?;
            Ok(scenario)
        }
        LineKind::Doc => take_doc(alloc, scenario, js),
        LineKind::Call => {
            let call = read_call_line(alloc, js)?;
            let scenario = with_call(scenario, at, call)?;
            Ok(scenario)
        }
        _ => Err(LineError::Refused(InputKind::Unplaced)),
    }
}

fn with_registry(scenario: Scenario, registry: Registry) -> Result<Scenario, InputKind>
    ensures exact { result ≡ with_registry scenario registry }
    ensures table { IfOk result (λ s. s.table ≡ scenario.table) }
    ensures asks { IfOk result (λ s. s.asks ≡ scenario.asks) }
{
    let Scenario {
        registry: earlier,
        table,
        asks,
    } = scenario;
    match earlier {
        Some(_) => Err(InputKind::DuplicateRegistry),
        None => Ok(Scenario {
            registry: Some(registry),
            table,
            asks,
        }),
    }
}

/// A refusal of the raw id and of the document comes first, then `DuplicateDoc`, and last
/// `UnknownField`.
fn take_doc(alloc: Global, scenario: Scenario, js: &Js) -> Result<Scenario, LineError>
    requires sound { is_sound js.now ≡ true }
    requires few { scenario.table.next < 2 ^ 63 }
    ensures exact { Gives result (with_doc_line scenario js.now) }
    ensures next { IfOk result (λ s. s.table.next ≤ scenario.table.next + 1) }
    ensures rows { IfOk result (λ s. length s.table.rows ≤ length scenario.table.rows + 1) }
    ensures few_objects { Each (λ a. HasFewObjects a.call) scenario.asks → IfOk result (λ s. Each (λ a. HasFewObjects a.call) s.asks) }
{
    let raw = needed_raw(js)?;
    let doc = needed_doc(alloc, js)?;
    if has_row(&scenario.table, raw.as_str()) {
        return Err(LineError::Refused(InputKind::DuplicateDoc));
    }
    if has_other_than(js, &["line", "raw", "doc"]) {
        return Err(LineError::Refused(InputKind::UnknownField));
    }
    let scenario = with_doc(alloc, scenario, raw, doc)?;
    Ok(scenario)
}

fn has_row(table: &DocTable, raw: &str) -> bool
    ensures { result ≡ is_some (at raw.now table.now.rows) }
{
    table.get(raw).is_some()
}

fn with_doc(alloc: Global, scenario: Scenario, raw: Text, doc: Doc) -> Result<Scenario, AllocError>
    requires { scenario.table.next < 2 ^ 63 }
    ensures exact { IfOk result (λ s. s ≡ with_doc scenario raw doc) }
    ensures next { IfOk result (λ s. s.table.next ≤ scenario.table.next + 1) }
    ensures rows { IfOk result (λ s. length s.table.rows ≤ length scenario.table.rows + 1) }
    ensures few_objects { Each (λ a. HasFewObjects a.call) scenario.asks → IfOk result (λ s. Each (λ a. HasFewObjects a.call) s.asks) }
{
    let Scenario {
        registry,
        mut table,
        asks,
    } = scenario;
    table.create(raw, SharedDoc::new(alloc, doc)?)?;
    Ok(Scenario {
        registry,
        table,
        asks,
    })
}

fn with_call(scenario: Scenario, at: u64, call: Call) -> Result<Scenario, AllocError>
    ensures exact { IfOk result (λ s. s ≡ with_call scenario at call) }
    ensures few_objects { HasFewObjects call → Each (λ a. HasFewObjects a.call) scenario.asks → IfOk result (λ s. Each (λ a. HasFewObjects a.call) s.asks) }
{
    let Scenario {
        registry,
        table,
        mut asks,
    } = scenario;
    asks.push(ApplyAsk { at, call })?;
    Ok(Scenario {
        registry,
        table,
        asks,
    })
}
