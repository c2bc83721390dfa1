ghost use Rattle.std.specs.Prelude.{◌≡◌, IfOk, OnErr};
ghost use Rattle.base_model.specs.Keyed.{Text as Name, Keyed, at};
ghost use Rattle.race_model.specs.Stores.{block_over, read_over, close_over, pit_at, with_aliases};
ghost use Rattle.query_model.specs.Queries.{select};
ghost use Rattle.doc_query.specs.Mapped.{query_of, holds_of};
ghost use Rattle.store_words.specs.Words.{reply_of};
ghost use Rattle.store_core.specs.Engines.{beside};

use crate::answers::reply;
use index_store::IndexStore;
use plain_data::Text;
use std::alloc::AllocError;
use store_words::{Query, Reply};

/// Blocks an index, whatever the aliases.
pub fn block(indices: &mut IndexStore, name: &Text) -> Result<Reply, AllocError>
    ensures ok { IfOk result (λ reply. (aliases : Keyed Name) → beside aliases (indices.new, reply_of reply) ≡ block_over (at name.now indices.old.indices) (with_aliases indices.old aliases) name.now) }
    ensures err { OnErr result (indices.new ≡ indices.old) }
{
    match indices.block(name.as_str()) {
        Ok(served) => Ok(reply(served)),
        Err(refused) => Err(refused),
    }
}

/// The rows of a point in time that a query selects.
pub fn read_pit(indices: &mut IndexStore, pit: u64, query: &Query) -> Result<Reply, AllocError>
    ensures ok { IfOk result (λ reply. reply_of reply ≡ read_over (select holds_of) (pit_at pit indices.old.pits) pit (query_of query.now)) }
    ensures same { indices.new ≡ indices.old }
{
    match indices.read_pit(pit, query) {
        Ok(served) => Ok(reply(served)),
        Err(refused) => Err(refused),
    }
}

/// Closes a point in time, whatever the aliases.
pub fn close_pit(indices: &mut IndexStore, pit: u64) -> Result<Reply, AllocError>
    ensures ok { IfOk result (λ reply. (aliases : Keyed Name) → beside aliases (indices.new, reply_of reply) ≡ close_over (pit_at pit indices.old.pits) (with_aliases indices.old aliases) pit) }
    ensures err { OnErr result (indices.new ≡ indices.old) }
{
    match indices.close_pit(pit) {
        Ok(served) => Ok(reply(served)),
        Err(refused) => Err(refused),
    }
}
