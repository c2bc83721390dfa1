use plain_data::Text;
use version_token::Ver;

/// A fact of a journal's history; `at` is the place of its entry in the journal, from 1.
#[derive(Clone, Debug, PartialEq, Eq, Drop)]
pub enum Fact {
    /// The index that was current takes no more writes.
    Block { at: u64 },
    /// The current alias went over to the target of this version.
    Migrate { at: u64, version: Ver, target: Text },
    /// The current alias was put on the target of this version, where there was no index before.
    Install { at: u64, version: Ver, target: Text },
    /// A call had its answer: the call of this number of the client with this number among all
    /// actors.
    Called { at: u64, actor: u32, tag: u64 },
}
