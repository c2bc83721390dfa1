ghost use Rattle.std.specs.Prelude.{◌≡◌};

use crate::copying::{copy_actions, copy_name, copy_query, copy_texts, copy_writes};
use alias_table::Action;
use doc_query::Query;
use doc_table::Write;
use plain_data::{List, Text};
use std::alloc::AllocError;

/// What an actor asks of the store.
///
/// A name in `OpenPit`, `Get`, `Search` and `Bulk` is an index, or else an alias that stands for
/// its index. Elsewhere it is an index.
#[derive(Debug, Drop)]
pub enum Request {
    /// Asks nothing.
    Ping,
    /// Asks what indices and aliases there are.
    State,
    /// Makes an empty index, which says from which index its rows come, if from one.
    Create { index: Text, source: Option<Text> },
    /// Refuses bulk requests on the index from now on.
    Block { index: Text },
    /// Copies a blocked index to a new one, its rows numbered anew from 0.
    Clone { from: Text, to: Text },
    /// Keeps the rows of the index as they are now, as a point in time.
    OpenPit { index: Text },
    /// Asks for rows of a point in time.
    ReadPit { pit: u64, query: Query },
    /// Gives up a point in time.
    ClosePit { pit: u64 },
    /// Asks for the rows of raw ids.
    Get { index: Text, raws: List<Text> },
    /// Asks for rows of the index.
    Search { index: Text, query: Query },
    /// Writes in order, each on the table that those before leave.
    Bulk { index: Text, items: List<Write> },
    /// Changes aliases and removes indices in order: all of it, or nothing.
    Aliases { actions: List<Action> },
}

/// A copy equals the request, and shares its documents; or it is want of memory.
impl Clone for Request {
    ghost is_clone = { λ old new. new ≡ old };

    fn clone(&self) -> Result<Request, AllocError> {
        Ok(match self {
            Request::Ping => Request::Ping,
            Request::State => Request::State,
            Request::Create { index, source } => Request::Create {
                index: index.clone()?,
                source: copy_name(source)?,
            },
            Request::Block { index } => Request::Block {
                index: index.clone()?,
            },
            Request::Clone { from, to } => Request::Clone {
                from: from.clone()?,
                to: to.clone()?,
            },
            Request::OpenPit { index } => Request::OpenPit {
                index: index.clone()?,
            },
            Request::ReadPit { pit, query } => Request::ReadPit {
                pit: *pit,
                query: copy_query(query)?,
            },
            Request::ClosePit { pit } => Request::ClosePit { pit: *pit },
            Request::Get { index, raws } => Request::Get {
                index: index.clone()?,
                raws: copy_texts(raws)?,
            },
            Request::Search { index, query } => Request::Search {
                index: index.clone()?,
                query: copy_query(query)?,
            },
            Request::Bulk { index, items } => Request::Bulk {
                index: index.clone()?,
                items: copy_writes(items)?,
            },
            Request::Aliases { actions } => Request::Aliases {
                actions: copy_actions(actions)?,
            },
        })
    }
}
