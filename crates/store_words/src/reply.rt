ghost use Rattle.std.specs.Prelude.{◌≡◌};

use crate::copying::{copy_found, copy_items, copy_page, copy_pairs, copy_refusal, copy_seen};
use crate::refusal::Refusal;
use alias_table::Pair;
use doc_query::Selected;
use doc_table::{Item, Row};
use plain_data::{List, Text};
use std::alloc::AllocError;

/// What the store replies to a request.
#[derive(Debug, Drop)]
pub enum Reply {
    /// The request was done, and there is nothing to tell.
    Done,
    /// The indices and the aliases, each in rising order of name.
    State {
        indices: List<IndexSeen>,
        aliases: List<Pair>,
    },
    /// The number of the point in time that was opened.
    Pit(u64),
    /// The page of the rows that a query selects.
    Rows(Selected),
    /// A row or none for each raw id of a get.
    Found(List<Option<Row>>),
    /// The result of each write of a bulk.
    Items(List<Item>),
    /// The request was refused, and changed nothing.
    Refused(Refusal),
}

/// What a `State` request shows of an index.
#[derive(Clone, Debug, PartialEq, Eq, Drop)]
pub struct IndexSeen {
    pub name: Text,
    /// Whether bulk requests are refused.
    pub blocked: bool,
    /// The index that its rows come from, if from one.
    pub source: Option<Text>,
}

/// A copy equals the reply, and shares its documents; or it is want of memory.
impl Clone for Reply {
    ghost is_clone = { λ old new. new ≡ old };

    fn clone(&self) -> Result<Reply, AllocError> {
        Ok(match self {
            Reply::Done => Reply::Done,
            Reply::State { indices, aliases } => Reply::State {
                indices: copy_seen(indices)?,
                aliases: copy_pairs(aliases)?,
            },
            Reply::Pit(pit) => Reply::Pit(*pit),
            Reply::Rows(page) => Reply::Rows(copy_page(page)?),
            Reply::Found(rows) => Reply::Found(copy_found(rows)?),
            Reply::Items(items) => Reply::Items(copy_items(items)?),
            Reply::Refused(refusal) => Reply::Refused(copy_refusal(refusal)?),
        })
    }
}
