use call_words::Call;
use doc_table::DocTable;
use plain_data::List;
use type_registry::Registry;
use version_token::Ver;

/// How a store opens, and who works on it.
#[derive(Debug, Drop)]
pub struct Opening {
    /// The registries of all versions that are spoken of, one for each.
    pub registries: List<Registry>,
    /// What stands in the store; without it the store is empty.
    pub generation: Option<Generation>,
    /// What instances migrate to; they are numbered from 1 through the sets in order.
    pub targets: List<TargetSet>,
    /// How many entries the journal may hold, 1 to 4,000,000.
    pub limit: u64,
    /// The clients, numbered from 1 in order.
    pub scripts: List<Script>,
}

/// The documents that a version holds as the store opens, in the version's index, which the current
/// alias and the version's alias name.
#[derive(Debug, Drop)]
pub struct Generation {
    pub version: Ver,
    /// The documents under their raw ids, numbered 0, 1, .. in rising order of raw id.
    pub table: DocTable,
}

/// The instances of one version.
#[derive(Clone, Copy, Debug, PartialEq, Eq)]
pub struct TargetSet {
    pub version: Ver,
    /// How many there are.
    pub instances: u32,
    /// How many rows each reads at once, 1 to 10,000.
    pub batch: u64,
    /// How many faults in a row each bears, 0 to 64.
    pub attempts: u64,
}

/// The calls of one client, in their order, under the registry of its version.
#[derive(Debug, Drop)]
pub struct Script {
    pub version: Ver,
    pub calls: List<Call>,
}
