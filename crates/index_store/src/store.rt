ghost use Rattle.std.specs.Prelude.{◌≡◌, ◌+◌, ◌<◌, ◌≤◌, ◌^◌, map, length, IfOk, OnErr, IsSome, IfSome, slice_get};
ghost use Rattle.std.specs.Option.{option_copied, option_map};
ghost use Rattle.base_model.specs.Keyed.{at};
ghost use Rattle.race_model.specs.Sorted.{IsSorted};
ghost use Rattle.race_model.specs.Stores.{create_over, block_over, clone_over, open_over, read_over, close_over, get_over, search_over, bulk_over, pit_at};
ghost use Rattle.query_model.specs.Queries.{select};
ghost use Rattle.doc_query.specs.Mapped.{query_of, holds_of};
ghost use Rattle.doc_table.specs.Tables.{write_of};
ghost use Rattle.index_store.specs.Indices.{opened_store, AreApart, HasEach, table_in, blocked_in, source_in, names_of, without_index, shown_of, shown_in};
ghost use Rattle.index_store.specs.Serves.{reply_of};

use crate::held::{Held, Shown, add, fresh, look, names, place, put, take_away};
use crate::kept::{Kept, kept_at, let_go};
use crate::opened::Opened;
use crate::reading::{found_rows, selected};
use crate::served::{Served, exists, no_index, not_blocked};
use crate::writing::write_in;
use doc_query::Query;
use doc_table::{DocTable, Write};
use plain_data::{List, Text};
use std::alloc::{AllocError, Global};
use std::marker::Model;

/// Named indices with their tables, and points in time.
///
/// Contracts see the store of the model, without aliases: a name is an index in each call.
#[derive(Debug, Drop)]
pub struct IndexStore {
    indices: Vec<Held>,
    opened: u64,
    /// The open points in time, the newest first.
    pits: Vec<Kept>,
}

impl Model for IndexStore {
    ghost use Rattle.document_model.specs.Documents.{Doc as Document};
    ghost use Rattle.race_model.specs.Sorted.{IsSorted};
    ghost use Rattle.race_model.specs.Stores.{Store};
    ghost use Rattle.so_js.specs.declared.js.Js.{Js};
    ghost use Rattle.index_store.specs.Indices.{indices_of, store_of, store_code};

    ghost Value = { Store (Document Js) };

    ghost coded = { store_code };

    ghost view = { λ s. store_of s.indices.items s.opened s.pits.items };

    ghost invariant = { λ s. IsSorted (indices_of s.indices.items) };
}

impl IndexStore {
    /// A store of these indices, each open and without a source; or want of memory. Of two indices
    /// with one name the later stays.
    #[tactic(auto, unfolding(crate::specs::Indices::opened_after, race_model::specs::Sorted::IsSorted))]
    pub fn open(alloc: Global, indices: List<Opened>) -> Result<IndexStore, AllocError>
        ensures store { IfOk result (λ store. store ≡ opened_store indices) }
        ensures given { AreApart indices → IfOk result (λ store. HasEach store.indices indices) }
    {
        let mut held = Vec::with_capacity(alloc, indices.len())?;
        for opened in indices.into_vec() {
            let Opened { name, table } = opened;
            put(&mut held, name, table)?;
        }
        Ok(IndexStore {
            indices: held,
            opened: 0,
            pits: Vec::new(alloc),
        })
    }

    /// Adds an open index without rows.
    ///
    /// Answers `Exists` with its source where the index is there, and else `Done`. After want of
    /// memory the store is as it was.
    pub fn create(&mut self, index: Text, source: Option<Text>) -> Result<Served, AllocError>
        ensures ok { IfOk result (λ served. (self.new, reply_of served) ≡ create_over (at index self.old.indices) None self.old index source) }
        ensures err { OnErr result (self.new ≡ self.old) }
    {
        match look(self.indices.as_slice(), index.as_str()) {
            Some(held) => exists(index, held),
            None => {
                let table = DocTable::empty(*self.indices.allocator());
                add(&mut self.indices, fresh(index, source, table))?;
                Ok(Served::Done)
            }
        }
    }

    /// Blocks an index, which from then on takes no writes.
    ///
    /// Answers `NoIndex` where there is none, and else `Done`, also where it was blocked. After want
    /// of memory the store is as it was.
    pub fn block(&mut self, index: &str) -> Result<Served, AllocError>
        ensures ok { IfOk result (λ served. (self.new, reply_of served) ≡ block_over (at index.now self.old.indices) self.old index.now) }
        ensures err { OnErr result (self.new ≡ self.old) }
    {
        match place(self.indices.as_slice(), index) {
            Some(at) => {
                self.indices[at].blocked = true;
                Ok(Served::Done)
            }
            None => no_index(*self.indices.allocator(), index),
        }
    }

    /// Adds a copy of a blocked index, which is open, has the same source, and has the rows with the
    /// numbers 0, 1, .. in order of raw id.
    ///
    /// Answers `Exists` with its source where an index named `to` is there, `NoIndex` where there is
    /// none named `from`, `NotBlocked` where that one is not blocked, and else `Done`. After want of
    /// memory the store is as it was.
    pub fn clone_index(&mut self, from: &str, to: Text) -> Result<Served, AllocError>
        ensures ok { IfOk result (λ served. (self.new, reply_of served) ≡ clone_over (at to self.old.indices) None (at from.now self.old.indices) self.old from.now to) }
        ensures err { OnErr result (self.new ≡ self.old) }
    {
        let indices = self.indices.as_slice();
        if let Some(held) = look(indices, to.as_str()) {
            return exists(to, held);
        }
        let Some(held) = look(indices, from) else {
            return no_index(*self.indices.allocator(), from);
        };
        if !held.blocked {
            return not_blocked(*self.indices.allocator(), from);
        }
        let copy = held.copy(to)?;
        add(&mut self.indices, copy)?;
        Ok(Served::Done)
    }

    /// Opens a point in time, which keeps the rows of the index as they are now.
    ///
    /// Answers `NoIndex` where there is no such index, and else `Pit` with the count of those that
    /// were opened before. After want of memory the store is as it was.
    pub fn open_pit(&mut self, index: &str) -> Result<Served, AllocError>
        requires { self.old.opened < 2 ^ 63 }
        ensures ok { IfOk result (λ served. (self.new, reply_of served) ≡ open_over (at index.now self.old.indices) self.old index.now) }
        ensures err { OnErr result (self.new ≡ self.old) }
    {
        let Some(held) = look(self.indices.as_slice(), index) else {
            return no_index(*self.indices.allocator(), index);
        };
        let kept = Kept {
            number: self.opened,
            table: held.table.snapshot()?,
        };
        self.pits.insert(0, kept)?;
        self.opened += 1;
        Ok(Served::Pit(self.opened - 1))
    }

    /// The rows of a point in time that a query selects.
    ///
    /// Answers `NoPit` where it was never opened or is closed, and else `Rows`; or want of memory.
    /// The store stays as it was.
    pub fn read_pit(&mut self, pit: u64, query: &Query) -> Result<Served, AllocError>
        ensures ok { IfOk result (λ served. reply_of served ≡ read_over (select holds_of) (pit_at pit self.old.pits) pit (query_of query.now)) }
        ensures same { self.new ≡ self.old }
    {
        let alloc = *self.pits.allocator();
        match kept_at(self.pits.as_slice(), pit) {
            Some(kept) => Ok(Served::Rows(selected(alloc, &kept.table, query)?)),
            None => Ok(Served::NoPit(pit)),
        }
    }

    /// Closes a point in time.
    ///
    /// Answers `NoPit` where it was never opened or is closed, and else `Done`.
    pub fn close_pit(&mut self, pit: u64) -> Result<Served, AllocError>
        ensures ok { IfOk result (λ served. (self.new, reply_of served) ≡ close_over (pit_at pit self.old.pits) self.old pit) }
        ensures err { OnErr result (self.new ≡ self.old) }
    {
        if kept_at(self.pits.as_slice(), pit).is_none() {
            return Ok(Served::NoPit(pit));
        }
        let_go(&mut self.pits, pit);
        Ok(Served::Done)
    }

    /// For each raw id, in order, its row in an index, or none.
    ///
    /// Answers `NoIndex` where there is no such index, and else `Found`; or want of memory. The store
    /// stays as it was.
    pub fn get(&mut self, index: &str, raws: &List<Text>) -> Result<Served, AllocError>
        ensures ok { IfOk result (λ served. reply_of served ≡ get_over (at index.now self.old.indices) index.now raws.now) }
        ensures same { self.new ≡ self.old }
    {
        let alloc = *self.indices.allocator();
        match look(self.indices.as_slice(), index) {
            Some(held) => Ok(Served::Found(found_rows(alloc, &held.table, raws)?)),
            None => no_index(alloc, index),
        }
    }

    /// The rows of an index that a query selects.
    ///
    /// Answers `NoIndex` where there is no such index, and else `Rows`; or want of memory. The store
    /// stays as it was.
    pub fn search(&mut self, index: &str, query: &Query) -> Result<Served, AllocError>
        ensures ok { IfOk result (λ served. reply_of served ≡ search_over (select holds_of) (at index.now self.old.indices) index.now (query_of query.now)) }
        ensures same { self.new ≡ self.old }
    {
        let alloc = *self.indices.allocator();
        match look(self.indices.as_slice(), index) {
            Some(held) => Ok(Served::Rows(selected(alloc, &held.table, query)?)),
            None => no_index(alloc, index),
        }
    }

    /// Does the writes in order on an index.
    ///
    /// Answers `NoIndex` where there is no such index, `Blocked` where it is blocked, and else
    /// `Items` with the result of each write. After want of memory the store is as it was.
    pub fn bulk(&mut self, index: &str, items: List<Write>) -> Result<Served, AllocError>
        requires room { IfSome (at index.now self.old.indices) (λ ix. ix.table.next + length items ≤ 2 ^ 63) }
        ensures ok { IfOk result (λ served. (self.new, reply_of served) ≡ bulk_over (at index.now self.old.indices) self.old index.now index.now (map write_of items)) }
        ensures err { OnErr result (self.new ≡ self.old) }
    {
        let alloc = *self.indices.allocator();
        let Some(at) = place(self.indices.as_slice(), index) else {
            return no_index(alloc, index);
        };
        let held = &self.indices[at];
        if held.blocked {
            return Ok(Served::Blocked(held.name.clone()?));
        }
        let results = write_in(alloc, &mut self.indices[at].table, items)?;
        Ok(Served::Items(results))
    }

    /// The names of the indices, which rise; or want of memory.
    pub fn names(&self) -> Result<List<Text>, AllocError>
        ensures all { IfOk result (λ names. names ≡ names_of self.now.indices) }
        ensures rise { IsSorted self.now.indices }
    {
        names(*self.indices.allocator(), self.indices.as_slice())
    }

    /// How many points in time were opened, those that are closed too. Takes no memory.
    pub fn opened(&self) -> u64
        ensures { result ≡ self.now.opened }
    {
        self.opened
    }

    /// The number of indices. Takes no memory.
    pub fn len(&self) -> usize
        ensures count { result ≡ length self.now.indices }
        ensures rise { IsSorted self.now.indices }
    {
        self.indices.len()
    }

    /// What is shown of the index at this place, counted from 0 in rising order of name, or `None`
    /// past the end. Takes no memory.
    pub fn shown(&self, at: usize) -> Option<Shown<'_>>
        ensures { option_map shown_of result ≡ option_map shown_in (slice_get self.now.indices at) }
    {
        match self.indices.get(at) {
            Some(held) => Some(held.shown()),
            None => None,
        }
    }

    /// The table of an index, or `None` where there is no such index. Takes no memory.
    pub fn table(&self, name: &str) -> Option<&DocTable>
        ensures { option_copied result ≡ table_in (at name.now self.now.indices) }
    {
        match look(self.indices.as_slice(), name) {
            Some(held) => Some(&held.table),
            None => None,
        }
    }

    /// Whether an index is blocked, or `None` where there is no such index. Takes no memory.
    pub fn blocked(&self, name: &str) -> Option<bool>
        ensures { result ≡ blocked_in (at name.now self.now.indices) }
    {
        match look(self.indices.as_slice(), name) {
            Some(held) => Some(held.blocked),
            None => None,
        }
    }

    /// The index that an index was made from; `None` where there is no such index or it has no
    /// source. Takes no memory.
    pub fn source_of(&self, index: &str) -> Option<&Text>
        ensures { option_copied result ≡ source_in (at index.now self.now.indices) }
    {
        match look(self.indices.as_slice(), index) {
            Some(held) => held.source.as_ref(),
            None => None,
        }
    }

    /// Takes an index out, which is there. Points in time stay. Takes no memory.
    pub fn remove(&mut self, name: &str)
        requires { IsSome (at name.now self.old.indices) }
        ensures { self.new ≡ without_index self.old name.now }
    {
        take_away(&mut self.indices, name);
    }
}
