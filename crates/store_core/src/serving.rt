ghost use Rattle.std.specs.Prelude.{◌≡◌, ◌+◌, ℕ, true, IfOk, OnOk, OnErr};
ghost use Rattle.race_model.specs.Replies.{fits_reply};
ghost use Rattle.alias_table.specs.Plans.{keyed_of};
ghost use Rattle.store_words.specs.Serving.{served};
ghost use Rattle.store_words.specs.Links.{IsSendable};
ghost use Rattle.store_words.specs.Words.{request_of, reply_of, take_of};
ghost use Rattle.store_core.specs.Standing.{AreAliases, IsOrderly, HasRoom};
ghost use Rattle.store_core.specs.Engines.{store_of, answer_of, HasNumbers};

use crate::aliasing::change;
use crate::reading::{get, search, state};
use crate::simple::{block, close_pit, read_pit};
use crate::writing::{bulk, copy_index, create, open_pit};
use alias_table::Pair;
use index_store::IndexStore;
use plain_data::List;
use std::alloc::AllocError;
use store_words::{Reply, Request};

/// Answers a request on indices and aliases, which stay in order.
#[tactic(auto, using(crate::proofs::Replies::orderly_now, crate::proofs::Replies::fits_now, crate::proofs::Replies::room_now))]
pub fn answered(
    indices: &mut IndexStore,
    aliases: &mut List<Pair>,
    request: &Request,
) -> Result<Reply, AllocError>
    requires orderly { IsOrderly (store_of indices.old aliases.old) }
    requires numbers { HasNumbers (store_of indices.old aliases.old) request.now }
    ensures ok { IfOk result (λ reply. answer_of indices.new aliases.new (reply_of reply) ≡ served (store_of indices.old aliases.old) request.now) }
    ensures err { OnErr result ((indices.new ≡ indices.old) × (aliases.new ≡ aliases.old)) }
    ensures orderly { IsOrderly (store_of indices.new aliases.new) }
    ensures fits { IfOk result (λ reply. fits_reply take_of (request_of request.now) (reply_of reply) ≡ true) }
    ensures room { (n : ℕ) → IsSendable request.now → HasRoom n (store_of indices.old aliases.old) → OnOk result (HasRoom (n + 1) (store_of indices.new aliases.new)) }
{
    match serve(indices, aliases, request) {
        Ok(reply) => Ok(reply),
        Err(refused) => Err(refused),
    }
}

#[tactic(auto, unfolding(race_model::specs::Stores::serve))]
fn serve(
    indices: &mut IndexStore,
    aliases: &mut List<Pair>,
    request: &Request,
) -> Result<Reply, AllocError>
    requires named { AreAliases indices.old.indices (keyed_of aliases.old) }
    requires numbers { HasNumbers (store_of indices.old aliases.old) request.now }
    ensures ok { IfOk result (λ reply. answer_of indices.new aliases.new (reply_of reply) ≡ served (store_of indices.old aliases.old) request.now) }
    ensures err { OnErr result ((indices.new ≡ indices.old) × (aliases.new ≡ aliases.old)) }
{
    match request {
        Request::Ping => Ok(Reply::Done),
        Request::State => state(indices, aliases),
        Request::Create { index, source } => create(indices, aliases, index, source),
        Request::Block { index } => block(indices, index),
        Request::Clone { from, to } => copy_index(indices, aliases, from, to),
        Request::OpenPit { index } => open_pit(indices, aliases, index),
        Request::ReadPit { pit, query } => read_pit(indices, *pit, query),
        Request::ClosePit { pit } => close_pit(indices, *pit),
        Request::Get { index, raws } => get(indices, aliases, index, raws),
        Request::Search { index, query } => search(indices, aliases, index, query),
        Request::Bulk { index, items } => bulk(indices, aliases, index, items),
        Request::Aliases { actions } => change(indices, aliases, actions),
    }
}
