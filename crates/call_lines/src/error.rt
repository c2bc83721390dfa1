ghost use Rattle.std.specs.Prelude.{◌≡◌};
ghost use Rattle.call_lines.specs.declared.error.LineError.TheVariants.{Memory, Refused};

use std::alloc::{AllocError, AllocFailed};
use wire_io::InputKind;

/// Why a line was not read.
#[derive(Clone, Copy, Debug, PartialEq, Eq)]
pub enum LineError {
    /// Memory ran out.
    Memory,
    /// The first cause that applies to the line.
    Refused(InputKind),
}

impl From<AllocError> for LineError {
    ghost from_gives = { λ _ e. e ≡ Memory };

    fn from(_refused: AllocError) -> LineError {
        LineError::Memory
    }
}

impl<T: Drop> From<AllocFailed<T>> for LineError {
    ghost from_gives = { λ _ e. e ≡ Memory };

    fn from(_refused: AllocFailed<T>) -> LineError {
        LineError::Memory
    }
}

impl From<InputKind> for LineError {
    ghost from_gives = { λ kind e. e ≡ Refused kind };

    fn from(kind: InputKind) -> LineError {
        LineError::Refused(kind)
    }
}
