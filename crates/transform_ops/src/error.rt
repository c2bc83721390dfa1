ghost use Rattle.std.specs.Prelude.{◌≡◌};
ghost use Rattle.transform_ops.specs.declared.error.OpError.TheVariants.{Memory};

use std::alloc::{AllocError, AllocFailed};
use thiserror::Error;

/// Why a tree is no operation.
#[derive(Clone, Copy, Debug, PartialEq, Eq, Error)]
pub enum OpError {
    /// Memory ran out.
    #[error("out of memory")]
    Memory,
    /// The tree is no object with a known `op` and exactly that operation's members.
    #[error("no operation")]
    BadOp,
}

impl From<AllocError> for OpError {
    ghost from_gives = { λ _ e. e ≡ Memory };

    fn from(_refused: AllocError) -> OpError {
        OpError::Memory
    }
}

impl<T: Drop> From<AllocFailed<T>> for OpError {
    ghost from_gives = { λ _ e. e ≡ Memory };

    fn from(_refused: AllocFailed<T>) -> OpError {
        OpError::Memory
    }
}
