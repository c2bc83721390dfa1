ghost use Rattle.std.specs.Prelude.{◌≡◌, IfOk};
ghost use Rattle.race_model.specs.Stores.Reply.{Refused};
ghost use Rattle.race_model.specs.Stores as stores;
ghost use Rattle.index_store.specs.Serves.{reply_of};

use crate::held::Held;
use doc_query::Selected;
use doc_table::Item;
use plain_data::{List, Text};
use saved_doc::Row;
use std::alloc::{AllocError, Global};

/// What an index store answers to a request.
#[derive(Clone, Debug, Drop)]
pub enum Served {
    /// The request was done.
    Done,
    /// A point in time was opened under this number.
    Pit(u64),
    /// The page of the rows that the query selects, and how many it selects.
    Rows(Selected),
    /// For each raw id, in order, its row or none.
    Found(List<Option<Row>>),
    /// The result of each write, in order.
    Items(List<Item>),
    /// An index has the name already; its source is told.
    Exists { name: Text, source: Option<Text> },
    /// There is no index of this name.
    NoIndex(Text),
    /// The index that is to be copied is not blocked.
    NotBlocked(Text),
    /// The point in time was never opened, or is closed.
    NoPit(u64),
    /// The index is blocked and takes no writes.
    Blocked(Text),
}

/// There is no index of this name.
pub fn no_index(alloc: Global, name: &str) -> Result<Served, AllocError>
    ensures { IfOk result (λ served. reply_of served ≡ Refused (stores.Refusal.NoIndex name.now)) }
{
    Ok(Served::NoIndex(Text::from_str(alloc, name)?))
}

/// The index is not blocked.
pub fn not_blocked(alloc: Global, name: &str) -> Result<Served, AllocError>
    ensures { IfOk result (λ served. reply_of served ≡ Refused (stores.Refusal.NotBlocked name.now)) }
{
    Ok(Served::NotBlocked(Text::from_str(alloc, name)?))
}

/// The index is there already.
pub fn exists(name: Text, held: &Held) -> Result<Served, AllocError>
    ensures { IfOk result (λ served. reply_of served ≡ Refused (stores.Refusal.Exists name held.now.source)) }
{
    Ok(Served::Exists {
        name,
        source: held.source.clone()?,
    })
}
