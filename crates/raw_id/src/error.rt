ghost use Rattle.std.specs.Prelude.{◌≡◌};
ghost use Rattle.raw_id.specs.declared.error.RawError.TheVariants.{Memory};

use std::alloc::AllocError;
use thiserror::Error;

/// Why an object has no raw id.
#[derive(Clone, Copy, Debug, PartialEq, Eq, Error)]
pub enum RawError {
    /// Memory ran out.
    #[error("out of memory")]
    Memory,
    /// The name of the type is no type name.
    #[error("no type name")]
    BadType,
    /// The id is empty.
    #[error("no id")]
    BadId,
}

impl From<AllocError> for RawError {
    ghost from_gives = { λ _ e. e ≡ Memory };

    fn from(_refused: AllocError) -> RawError {
        RawError::Memory
    }
}
