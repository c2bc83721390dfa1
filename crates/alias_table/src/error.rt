ghost use Rattle.std.specs.Prelude.{◌≡◌};
ghost use Rattle.alias_table.specs.declared.error.PlanError.TheVariants.{Memory};

use plain_data::Text;
use std::alloc::AllocError;
use thiserror::Error;

/// Why an alias request does nothing.
#[derive(Debug, PartialEq, Eq, Drop, Error)]
pub enum PlanError {
    /// Memory ran out.
    #[error("out of memory")]
    Memory,
    /// The alias that is to go does not name this index.
    #[error("the alias does not name the index")]
    AliasMissing { alias: Text, index: Text },
    /// The alias names another index, which is told.
    #[error("the alias names another index")]
    AliasTaken { alias: Text, index: Text },
    /// An index has the alias's name.
    #[error("an index has the name of the alias")]
    NameTaken(Text),
    /// There is no index of this name.
    #[error("no such index")]
    NoIndex(Text),
}

impl From<AllocError> for PlanError {
    ghost from_gives = { λ _ e. e ≡ Memory };

    fn from(_refused: AllocError) -> PlanError {
        PlanError::Memory
    }
}
