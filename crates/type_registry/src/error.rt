ghost use Rattle.std.specs.Prelude.{◌≡◌};
ghost use Rattle.type_registry.specs.declared.error.RegError.TheVariants.{Memory};

use std::alloc::{AllocError, AllocFailed};
use thiserror::Error;

/// Why a tree is no registry.
#[derive(Clone, Copy, Debug, PartialEq, Eq, Error)]
pub enum RegError {
    /// Memory ran out.
    #[error("out of memory")]
    Memory,
    /// A member that must be there is missing.
    #[error("a member is missing")]
    MissingField,
    /// The tree, a type, a migration or a member is of the wrong kind.
    #[error("a member of the wrong kind")]
    WrongKind,
    /// A member that isn't listed.
    #[error("an unknown member")]
    UnknownField,
    /// A text that stands for a version is none, or is one above the registry's.
    #[error("no version")]
    BadVersion,
    /// A name of a type is no type name.
    #[error("no type name")]
    BadType,
    /// A name of a type stands for a second time, or is that of alias documents.
    #[error("a type name twice")]
    DuplicateType,
    /// A kind that there isn't, or a `shareableAt` on one that isn't multiple.
    #[error("no kind")]
    BadKind,
    /// The version of a migration isn't above that of the one before.
    #[error("versions that don't rise")]
    UnsortedVersions,
    /// An operation is none, or with it a type has more than 32 that nest values deeper.
    #[error("no operation")]
    BadOp,
}

impl From<AllocError> for RegError {
    ghost from_gives = { λ _ e. e ≡ Memory };

    fn from(_refused: AllocError) -> RegError {
        RegError::Memory
    }
}

impl<T: Drop> From<AllocFailed<T>> for RegError {
    ghost from_gives = { λ _ e. e ≡ Memory };

    fn from(_refused: AllocFailed<T>) -> RegError {
        RegError::Memory
    }
}
