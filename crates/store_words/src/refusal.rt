use plain_data::Text;

/// Why a request is refused.
#[derive(Clone, Debug, PartialEq, Eq, Drop)]
pub enum Refusal {
    /// An index of this name is there, with this source.
    Exists { name: Text, source: Option<Text> },
    /// An index was to have the name of an alias, or an alias the name of an index.
    NameTaken(Text),
    /// There is no index of this name.
    NoIndex(Text),
    /// The index that was to be cloned isn't blocked.
    NotBlocked(Text),
    /// The index, told by its own name, takes no bulk requests.
    Blocked(Text),
    /// No point in time of this number is open.
    NoPit(u64),
    /// The alias that was to go doesn't name the index.
    AliasMissing { alias: Text, index: Text },
    /// The alias names another index, which is told.
    AliasTaken { alias: Text, index: Text },
}
