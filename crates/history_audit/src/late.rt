use call_words::Call;
use doc_table::DocTable;
use plain_data::{List, Text};
use type_registry::Registry;

/// How a store opens where types get new migrations at the version that it has, and who works on it.
#[derive(Debug, Drop)]
pub struct LateOpening {
    /// The types as they were.
    pub before: Registry,
    /// The types with the further migrations, of the same version.
    pub after: Registry,
    /// The documents under their raw ids, numbered 0, 1, .. in rising order of raw id.
    pub table: DocTable,
    /// How many instances adopt the documents, numbered from 1.
    pub instances: u32,
    /// How many rows each reads at once, 1 to 10,000.
    pub batch: u64,
    /// How many faults in a row each bears, 0 to 64.
    pub attempts: u64,
    /// How many entries the journal may hold, 1 to 4,000,000.
    pub limit: u64,
    /// The clients, numbered from 1 in order.
    pub scripts: List<LateScript>,
}

/// The calls of one client, in their order.
#[derive(Debug, Drop)]
pub struct LateScript {
    /// Whether the client has the registry `after`; else it has `before`.
    pub late: bool,
    pub calls: List<Call>,
}

/// A fact of the history of such a store; `at` is the place of its entry in the journal, from 1.
#[derive(Clone, Debug, PartialEq, Eq, Drop)]
pub enum LateFact {
    /// A call had its answer: the call of this number of the client with this number among all
    /// actors.
    Called { at: u64, actor: u32, tag: u64 },
    /// The document of this raw id was adopted.
    Adopt { at: u64, raw: Text },
}
