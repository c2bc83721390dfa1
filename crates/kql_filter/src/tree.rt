ghost use Rattle.std.specs.Prelude.{◌≡◌};
ghost use Rattle.kql_filter.specs.declared.tree.FilterError.TheVariants.{Memory};

use plain_data::List;
use std::alloc::{AllocError, AllocFailed};
use thiserror::Error;

/// Why a text was not read as a filter.
#[derive(Clone, Copy, Debug, PartialEq, Eq, Error)]
pub enum FilterError {
    /// Memory ran out.
    #[error("out of memory")]
    Memory,
    /// The text is no filter.
    #[error("no filter")]
    BadFilter,
}

impl From<AllocError> for FilterError {
    ghost from_gives = { λ _ e. e ≡ Memory };

    fn from(_refused: AllocError) -> FilterError {
        FilterError::Memory
    }
}

impl<T: Drop> From<AllocFailed<T>> for FilterError {
    ghost from_gives = { λ _ e. e ≡ Memory };

    fn from(_refused: AllocFailed<T>) -> FilterError {
        FilterError::Memory
    }
}

/// A relation between whole numbers.
#[derive(Clone, Copy, Debug, PartialEq, Eq)]
pub enum Relation {
    AtMost,
    AtLeast,
    Below,
    Above,
}

/// What is asked of a field's value.
#[derive(Clone, Debug, Drop)]
pub enum Test {
    Present,
    Word(List<u8>),
    Prefix(List<u8>),
    Quoted(List<u8>),
    Compare(Relation, i128),
}

/// The tree of a filter.
#[derive(Debug, Drop)]
pub enum Expression {
    Or(Box<Expression>, Box<Expression>),
    And(Box<Expression>, Box<Expression>),
    Not(Box<Expression>),
    Field(List<u8>, Test),
}
