ghost use Rattle.std.specs.Prelude.{◌≡◌};
ghost use Rattle.space_scope.specs.declared.error.SpaceError.TheVariants.{Memory};

use std::alloc::AllocError;
use thiserror::Error;

/// Why a text names no space.
#[derive(Clone, Copy, Debug, PartialEq, Eq, Error)]
pub enum SpaceError {
    /// Memory ran out.
    #[error("out of memory")]
    Memory,
    /// The text is no space id.
    #[error("no space id")]
    BadSpace,
}

impl From<AllocError> for SpaceError {
    ghost from_gives = { λ _ e. e ≡ Memory };

    fn from(_refused: AllocError) -> SpaceError {
        SpaceError::Memory
    }
}
