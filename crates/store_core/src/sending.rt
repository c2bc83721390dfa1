ghost use Rattle.std.specs.Prelude.{◌≡◌, ◌↔◌, ◌+◌, ◌<◌, ◌≤◌, ◌^◌, ◌++◌, [], ◌∷◌, ℕ, length, true, IfOk, IfErr, OnOk, OnErr};
ghost use Rattle.std.specs.Option.{option_copied};
ghost use Rattle.base_model.specs.Keyed.{at};
ghost use Rattle.race_model.specs.Replies.{fits_reply};
ghost use Rattle.alias_table.specs.Plans.{keyed_of};
ghost use Rattle.index_store.specs.Indices.{names_of, table_in, blocked_in, source_in};
ghost use Rattle.store_words.specs.Links.{IsSendable};
ghost use Rattle.store_words.specs.Serving.{Store, served};
ghost use Rattle.store_words.specs.Words.{request_of, reply_of, take_of};
ghost use Rattle.doc_table.specs.RowLists.{Each};
ghost use Rattle.store_core.specs.Engines.{HasNumbers, IsAliasOf, opened_with};
ghost use Rattle.store_core.specs.Standing.{IsOrderly};
ghost use Rattle.store_core.specs.Journals.{IsJournaled, IsErrorAt, begun};

use crate::engine::Engine;
use crate::error::StoreError;
use crate::opening::{copies, pairs_copy};
use alias_table::Pair;
use doc_table::DocTable;
use index_store::Opened;
use plain_data::{List, Text};
use std::alloc::AllocError;
use std::marker::Model;
use store_words::{Entry, How, Reply, Request};

/// A store that keeps a journal of the requests since it was opened.
///
/// Contracts see what it was opened with, its limit, its journal, and the store now.
#[derive(Debug, Drop)]
pub struct StoreCore {
    opening: Engine,
    engine: Engine,
    journal: List<Entry>,
    limit: u64,
}

impl Model for StoreCore {
    ghost use Rattle.store_core.specs.Journals.{Journaled, IsJournaled, journaled_code};

    ghost Value = { Journaled };

    ghost coded = { journaled_code };

    ghost view = { λ c. record { opening = c.opening; limit = c.limit; journal = c.journal; store = c.engine } };

    ghost invariant = { λ c. IsJournaled (record { opening = c.opening; limit = c.limit; journal = c.journal; store = c.engine }) };
}

impl StoreCore {
    /// A store of these indices, each open and without a source, and of these aliases, with an
    /// empty journal that may hold `limit` entries; or want of memory. Of two of one name the later
    /// stays.
    #[tactic(auto, using(crate::proofs::Beginning::opened_journaled, crate::proofs::Beginning::aliases_of_copies))]
    pub fn open(
        indices: List<Opened>,
        aliases: List<Pair>,
        limit: u64,
    ) -> Result<StoreCore, AllocError>
        requires aliases { Each (IsAliasOf indices) aliases }
        requires numbers { Each (λ o. o.table.next < 2 ^ 62) indices }
        requires least { 1 ≤ limit }
        requires most { limit ≤ 4000000 }
        ensures { IfOk result (λ core. core ≡ begun (opened_with indices aliases) limit) }
    {
        let alloc = indices.alloc();
        let kept = match copies(&indices) {
            Ok(kept) => kept,
            Err(refused) => return Err(refused),
        };
        let pairs = match pairs_copy(&aliases) {
            Ok(pairs) => pairs,
            Err(refused) => return Err(refused),
        };
        let opening = match Engine::open(kept, pairs) {
            Ok(opening) => opening,
            Err(refused) => return Err(refused),
        };
        match Engine::open(indices, aliases) {
            Ok(engine) => Ok(StoreCore {
                opening,
                engine,
                journal: List::new(alloc),
                limit,
            }),
            Err(refused) => Err(refused),
        }
    }

    /// Answers a request as the definitions serve it, and adds its entry to the journal's end; the
    /// reply fits the request.
    ///
    /// `JournalFull` with the limit exactly where the journal holds as many entries; `Memory` where
    /// memory ran out. After either all is as it was.
    #[tactic(auto, using(crate::proofs::Replies::has_numbers))]
    pub fn send(
        &mut self,
        actor: u32,
        tag: u64,
        how: How,
        request: &Request,
    ) -> Result<Reply, StoreError>
        requires { IsSendable request.now }
        ensures answer { IfOk result (λ reply. (self.new.store, reply_of reply) ≡ served self.old.store request.now) }
        ensures entry { IfOk result (λ reply. self.new.journal ≡ self.old.journal ++ record { actor = actor; tag = tag; how = how; request = request.now; reply = reply } ∷ []) }
        ensures opening { (self.new.opening ≡ self.old.opening) × (self.new.limit ≡ self.old.limit) }
        ensures fits { IfOk result (λ reply. fits_reply take_of (request_of request.now) (reply_of reply) ≡ true) }
        ensures full { (result ≡ Err (StoreError.JournalFull self.old.limit)) ↔ (length self.old.journal ≡ self.old.limit) }
        ensures error { IfErr result (λ e. IsErrorAt self.old.limit e) }
        ensures err { OnErr result (self.new ≡ self.old) }
    {
        if self.journal.len() as u64 >= self.limit {
            return Err(StoreError::JournalFull(self.limit));
        }
        match add_entry(
            &mut self.engine,
            &mut self.journal,
            actor,
            tag,
            how,
            request,
        ) {
            Ok(reply) => Ok(reply),
            Err(_) => Err(StoreError::Memory),
        }
    }

    /// The entries of the requests that were done, in order. Takes no memory.
    pub fn journal(&self) -> &List<Entry>
        ensures all { result.now ≡ self.now.journal }
        ensures kept { IsJournaled self.now }
    {
        &self.journal
    }

    /// The names of the indices in rising order; or want of memory.
    pub fn names(&self) -> Result<List<Text>, AllocError>
        ensures all { IfOk result (λ names. names ≡ names_of self.now.store.indices) }
        ensures orderly { IsOrderly self.now.store }
    {
        self.engine.names()
    }

    /// The aliases, each with the index that it names, in rising order of alias. Takes no memory.
    pub fn aliases(&self) -> &List<Pair>
        ensures all { keyed_of result.now ≡ self.now.store.aliases }
        ensures orderly { IsOrderly self.now.store }
    {
        self.engine.aliases()
    }

    /// The table of an index, or `None` where there is no such index. Takes no memory.
    pub fn table(&self, index: &str) -> Option<&DocTable>
        ensures { option_copied result ≡ table_in (at index.now self.now.store.indices) }
    {
        self.engine.table(index)
    }

    /// Whether an index is blocked, or `None` where there is no such index. Takes no memory.
    pub fn blocked(&self, index: &str) -> Option<bool>
        ensures { result ≡ blocked_in (at index.now self.now.store.indices) }
    {
        self.engine.blocked(index)
    }

    /// The index that an index was made from, or `None` where there is no such index or it has no
    /// source. Takes no memory.
    pub fn source_of(&self, index: &str) -> Option<&Text>
        ensures { option_copied result ≡ source_in (at index.now self.now.store.indices) }
    {
        self.engine.source_of(index)
    }
}

/// Answers a request and adds its entry. All memory is taken before the first change: the entry's
/// place is taken by one that asks nothing.
fn add_entry(
    engine: &mut Engine,
    journal: &mut List<Entry>,
    actor: u32,
    tag: u64,
    how: How,
    request: &Request,
) -> Result<Reply, AllocError>
    requires numbers { HasNumbers engine.old request.now }
    requires short { IsSendable request.now }
    ensures answer { IfOk result (λ reply. (engine.new, reply_of reply) ≡ served engine.old request.now) }
    ensures entry { IfOk result (λ reply. journal.new ≡ journal.old ++ record { actor = actor; tag = tag; how = how; request = request.now; reply = reply } ∷ []) }
    ensures fits { IfOk result (λ reply. fits_reply take_of (request_of request.now) (reply_of reply) ≡ true) }
    ensures goes_on { (opening : Store) (limit : ℕ) → IsJournaled (record { opening = opening; limit = limit; journal = journal.old; store = engine.old }) → length journal.old < limit → OnOk result (IsJournaled (record { opening = opening; limit = limit; journal = journal.new; store = engine.new })) }
    ensures err { OnErr result ((engine.new ≡ engine.old) × (journal.new ≡ journal.old)) }
{
    let copy = match request.clone() {
        Ok(copy) => copy,
        Err(refused) => return Err(refused),
    };
    let place = journal.len();
    match journal.push(blank(actor, tag, how)) {
        Ok(()) => (),
        Err(refused) => return Err(refused),
    }
    match engine.answer_twice(request) {
        Ok((reply, kept)) => {
            let entry = Entry {
                actor,
                tag,
                how,
                request: copy,
                reply: kept,
            };
            journal.set(place, entry);
            Ok(reply)
        }
        Err(refused) => {
            journal.truncate(place);
            Err(refused)
        }
    }
}

/// An entry that holds a place.
fn blank(actor: u32, tag: u64, how: How) -> Entry {
    Entry {
        actor,
        tag,
        how,
        request: Request::Ping,
        reply: Reply::Done,
    }
}
