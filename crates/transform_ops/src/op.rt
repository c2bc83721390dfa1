ghost use Rattle.std.specs.Prelude.{◌≡◌, IfOk};
ghost use Rattle.transform_ops.specs.Effects.{is_nesting};

use plain_data::{List, Text};
use so_js::Js;
use std::alloc::AllocError;

/// An operation on the top level of a document's attributes. A clone equals its operation, or is
/// refused for want of memory.
#[derive(Debug, Drop)]
pub enum Op {
    /// Moves a value to another key, where the one is there and the other isn't.
    Rename { from: Text, to: Text },
    /// Adds a member where its key isn't there.
    SetDefault { key: Text, value: Js },
    /// Removes a member.
    Remove { key: Text },
    /// Moves a member into the object of another key, which is made where it is missing. It
    /// replaces a member of its key there.
    MoveInto { key: Text, into: Text },
    /// Replaces a text that the table has.
    MapText { key: Text, table: List<Replacement> },
    /// Makes a value that isn't a list a list of that one value.
    WrapList { key: Text },
}

/// A text and the one that takes its place.
#[derive(Clone, Debug, Drop)]
pub struct Replacement {
    pub from: Text,
    pub to: Text,
}

impl Clone for Op {
    ghost is_clone = { λ old new. new ≡ old };

    fn clone(&self) -> Result<Op, AllocError> {
        match self {
            Op::Rename { from, to } => {
                let from = from.clone()?;
                let to = to.clone()?;
                Ok(Op::Rename { from, to })
            }
            Op::SetDefault { key, value } => {
                let key = key.clone()?;
                let value = value.clone()?;
                Ok(Op::SetDefault { key, value })
            }
            Op::Remove { key } => {
                let key = key.clone()?;
                Ok(Op::Remove { key })
            }
            Op::MoveInto { key, into } => {
                let key = key.clone()?;
                let into = into.clone()?;
                Ok(Op::MoveInto { key, into })
            }
            Op::MapText { key, table } => {
                let key = key.clone()?;
                let table = copied(table)?;
                Ok(Op::MapText { key, table })
            }
            Op::WrapList { key } => {
                let key = key.clone()?;
                Ok(Op::WrapList { key })
            }
        }
    }
}

fn copied(table: &List<Replacement>) -> Result<List<Replacement>, AllocError>
    ensures { IfOk result (λ copy. copy ≡ table.now) }
{
    let copy = table.clone()?;
    Ok(copy)
}

impl Op {
    /// Whether the operation makes a value nest one level deeper: `MoveInto` and `WrapList`.
    pub fn nests(&self) -> bool
        ensures { result ≡ is_nesting self.now }
    {
        matches!(self, Op::MoveInto { .. } | Op::WrapList { .. })
    }
}
