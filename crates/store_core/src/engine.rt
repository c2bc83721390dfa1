ghost use Rattle.std.specs.Prelude.{◌≡◌, ℕ, ◌+◌, true, IfOk, OnOk, OnErr};
ghost use Rattle.std.specs.Option.{option_copied};
ghost use Rattle.base_model.specs.Keyed.{at};
ghost use Rattle.alias_table.specs.Plans.{keyed_of};
ghost use Rattle.index_store.specs.Indices.{names_of, table_in, blocked_in, source_in};
ghost use Rattle.store_words.specs.Serving.{served};
ghost use Rattle.race_model.specs.Replies.{fits_reply};
ghost use Rattle.store_words.specs.Links.{IsSendable};
ghost use Rattle.store_words.specs.Words.{request_of, reply_of, take_of};
ghost use Rattle.store_core.specs.Standing.{IsOrderly, HasRoom};
ghost use Rattle.doc_table.specs.RowLists.{Each};
ghost use Rattle.store_core.specs.Engines.{HasNumbers, IsAliasOf, opened_with};

use crate::copies::{copy_of, room_for};
use crate::opening::in_order;
use crate::serving::answered;
use alias_table::Pair;
use doc_table::DocTable;
use index_store::{IndexStore, Opened};
use plain_data::{List, Text};
use std::alloc::AllocError;
use std::marker::Model;
use store_words::{Reply, Request};

/// A store of indices with aliases, which answers requests and keeps no journal.
///
/// Contracts see the store of the definitions.
#[derive(Debug, Drop)]
pub struct Engine {
    indices: IndexStore,
    /// In rising order of alias.
    aliases: List<Pair>,
}

impl Model for Engine {
    ghost use Rattle.index_store.specs.Indices.{store_code};
    ghost use Rattle.store_words.specs.Serving.{Store};
    ghost use Rattle.store_core.specs.Standing.{IsOrderly};
    ghost use Rattle.store_core.specs.Engines.{store_of};

    ghost Value = { Store };

    ghost coded = { store_code };

    ghost view = { λ e. store_of e.indices e.aliases };

    ghost invariant = { λ e. IsOrderly (store_of e.indices e.aliases) };
}

impl Engine {
    /// A store of these indices, each open and without a source, and of these aliases; or want of
    /// memory. Of two of one name the later stays.
    #[tactic(auto, using(crate::proofs::Beginning::opened_is, crate::proofs::Beginning::opened_in_order))]
    pub fn open(indices: List<Opened>, aliases: List<Pair>) -> Result<Engine, AllocError>
        requires { Each (IsAliasOf indices) aliases }
        ensures { IfOk result (λ engine. engine ≡ opened_with indices aliases) }
    {
        let store = match IndexStore::open(indices.alloc(), indices) {
            Ok(store) => store,
            Err(refused) => return Err(refused),
        };
        match in_order(aliases) {
            Ok(pairs) => Ok(Engine {
                indices: store,
                aliases: pairs,
            }),
            Err(refused) => Err(refused),
        }
    }

    /// Answers a request as the definitions serve it; the reply fits it. After want of memory the
    /// store is as it was.
    ///
    /// Where a bulk has at most 65,536 writes, numbers that had come no further than n requests
    /// bring them have come no further than n + 1 do.
    pub fn answer(&mut self, request: &Request) -> Result<Reply, AllocError>
        requires { HasNumbers self.old request.now }
        ensures ok { IfOk result (λ reply. (self.new, reply_of reply) ≡ served self.old request.now) }
        ensures err { OnErr result (self.new ≡ self.old) }
        ensures fits { IfOk result (λ reply. fits_reply take_of (request_of request.now) (reply_of reply) ≡ true) }
        ensures room { (n : ℕ) → IsSendable request.now → HasRoom n self.old → OnOk result (HasRoom (n + 1) self.new) }
    {
        answered(&mut self.indices, &mut self.aliases, request)
    }

    /// The same with a copy of the reply, for which memory is taken before the store changes.
    #[tactic(auto, using(crate::proofs::Replies::few_results, crate::proofs::Replies::read_leaves))]
    pub(crate) fn answer_twice(&mut self, request: &Request) -> Result<(Reply, Reply), AllocError>
        requires { HasNumbers self.old request.now }
        ensures ok { IfOk result (λ both. (self.new, reply_of both.0) ≡ served self.old request.now) }
        ensures copy { IfOk result (λ both. both.1 ≡ both.0) }
        ensures err { OnErr result (self.new ≡ self.old) }
        ensures fits { IfOk result (λ both. fits_reply take_of (request_of request.now) (reply_of both.0) ≡ true) }
        ensures room { (n : ℕ) → IsSendable request.now → HasRoom n self.old → OnOk result (HasRoom (n + 1) self.new) }
    {
        let room = match room_for(self.aliases.alloc(), request) {
            Ok(room) => room,
            Err(refused) => return Err(refused),
        };
        let reply = match self.answer(request) {
            Ok(reply) => reply,
            Err(refused) => return Err(refused),
        };
        match copy_of(&reply, room) {
            Ok(copy) => Ok((reply, copy)),
            Err(refused) => Err(refused),
        }
    }

    /// The names of the indices in rising order; or want of memory.
    pub fn names(&self) -> Result<List<Text>, AllocError>
        ensures all { IfOk result (λ names. names ≡ names_of self.now.indices) }
        ensures orderly { IsOrderly self.now }
    {
        self.indices.names()
    }

    /// The aliases, each with the index that it names, in rising order of alias. Takes no memory.
    pub fn aliases(&self) -> &List<Pair>
        ensures all { keyed_of result.now ≡ self.now.aliases }
        ensures orderly { IsOrderly self.now }
    {
        &self.aliases
    }

    /// The table of an index, or `None` where there is no such index. Takes no memory.
    pub fn table(&self, index: &str) -> Option<&DocTable>
        ensures { option_copied result ≡ table_in (at index.now self.now.indices) }
    {
        self.indices.table(index)
    }

    /// Whether an index is blocked, or `None` where there is no such index. Takes no memory.
    pub fn blocked(&self, index: &str) -> Option<bool>
        ensures { result ≡ blocked_in (at index.now self.now.indices) }
    {
        self.indices.blocked(index)
    }

    /// The index that an index was made from, or `None` where there is no such index or it has no
    /// source. Takes no memory.
    pub fn source_of(&self, index: &str) -> Option<&Text>
        ensures { option_copied result ≡ source_in (at index.now self.now.indices) }
    {
        self.indices.source_of(index)
    }
}
