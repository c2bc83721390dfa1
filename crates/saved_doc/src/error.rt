ghost use Rattle.std.specs.Prelude.{◌≡◌};
ghost use Rattle.saved_doc.specs.declared.error.DocError.TheVariants.{Memory};

use std::alloc::{AllocError, AllocFailed};
use thiserror::Error;

/// Why a tree is no document.
#[derive(Clone, Copy, Debug, PartialEq, Eq, Error)]
pub enum DocError {
    /// Memory ran out.
    #[error("out of memory")]
    Memory,
    /// A member that each document has is missing.
    #[error("a member is missing")]
    MissingField,
    /// The tree or a member is of the wrong kind.
    #[error("a member of the wrong kind")]
    WrongKind,
    /// A text that stands for a version is none.
    #[error("no version")]
    BadVersion,
    /// A text that stands for a space is none that may stand there.
    #[error("no space id")]
    BadSpace,
    /// A member that no document has.
    #[error("an unknown member")]
    UnknownField,
}

impl From<AllocError> for DocError {
    ghost from_gives = { λ _ e. e ≡ Memory };

    fn from(_refused: AllocError) -> DocError {
        DocError::Memory
    }
}

impl<T: Drop> From<AllocFailed<T>> for DocError {
    ghost from_gives = { λ _ e. e ≡ Memory };

    fn from(_refused: AllocFailed<T>) -> DocError {
        DocError::Memory
    }
}
