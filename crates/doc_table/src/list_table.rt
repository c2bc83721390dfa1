ghost use Rattle.std.specs.Prelude.{◌≡◌, ◌<◌, ◌^◌, IfOk, OnErr, take};
ghost use Rattle.std.specs.Option.{option_copied, option_map};
ghost use Rattle.base_model.specs.Keyed.{at};
ghost use Rattle.race_model.specs.Stores.{empty_table, found_one, write, write as done, written, dropped, renumbered};
ghost use Rattle.race_model.specs.Stores.Write.{Create, Put, Delete};
ghost use Rattle.doc_table.specs.Tables.{IsTable, entry_of, entries, item_of, write_of, number, rows_above};

use crate::place::{is_after, look, meets, push_counted, push_if, put_at, scan, take_out};
use crate::writes::{Item, Write};
use plain_data::{List, Text};
use saved_doc::{Row, SharedDoc};
use std::alloc::{AllocError, Global};
use std::marker::Model;

/// A table as one sorted list: the plain program, with the contracts of `DocTable`.
#[derive(Debug, Drop)]
pub struct ListTable {
    rows: Vec<Row>,
    next: u64,
}

impl Model for ListTable {
    ghost use Rattle.document_model.specs.Documents.{Doc as Document};
    ghost use Rattle.race_model.specs.Stores.{Table};
    ghost use Rattle.so_js.specs.declared.js.Js.{Js};
    ghost use Rattle.doc_table.specs.RowLists.{IsNumbered};
    ghost use Rattle.doc_table.specs.Tables.{table_of, table_code};

    ghost Value = { Table (Document Js) };

    ghost coded = { table_code };

    ghost view = { λ t. table_of t.rows.items t.next };

    ghost invariant = { λ t. IsNumbered t.rows.items t.next };
}

impl ListTable {
    /// A table of no rows, whose next number is 0. Takes no memory.
    pub fn empty(alloc: Global) -> ListTable
        ensures { result ≡ empty_table }
    {
        ListTable {
            rows: Vec::new(alloc),
            next: 0,
        }
    }

    /// The number of the next write. Takes no memory.
    pub fn next(&self) -> u64
        ensures value { result ≡ self.now.next }
        ensures table { IsTable self.now }
    {
        self.next
    }

    /// The row of a raw id, if there is one. Takes no memory.
    pub fn get(&self, raw: &str) -> Option<&Row>
        ensures { option_map entry_of (option_copied result) ≡ found_one (at raw.now self.now.rows) raw.now }
    {
        look(self.rows.as_slice(), raw)
    }

    fn write(&mut self, raw: Text, doc: SharedDoc) -> Result<Item, AllocError>
        requires { self.old.next < 2 ^ 63 }
        ensures ok { IfOk result (λ item. (item ≡ Item.Written self.old.next) × (self.new ≡ written self.old raw doc)) }
        ensures err { OnErr result (self.new ≡ self.old) }
    {
        let place = scan(self.rows.as_slice(), raw.as_str());
        let row = Row {
            raw,
            seq: self.next,
            doc,
        };
        put_at(&mut self.rows, place, row)?;
        self.next += 1;
        Ok(Item::Written(self.next - 1))
    }

    fn erase(&mut self, raw: &str) -> Item
        requires { self.old.next < 2 ^ 63 }
        ensures item { result ≡ Item.Written self.old.next }
        ensures table { self.new ≡ dropped self.old raw.now }
    {
        let place = scan(self.rows.as_slice(), raw);
        take_out(&mut self.rows, place, raw);
        self.next += 1;
        Item::Written(self.next - 1)
    }

    fn number(&self, raw: &str) -> Option<u64>
        ensures { result ≡ number self.now raw.now }
    {
        match self.get(raw) {
            Some(row) => Some(row.seq),
            None => None,
        }
    }

    /// Adds the row, which no row has the raw id of, with the next number.
    ///
    /// Answers `Exists` with the number of the row where there is one, and else `Written` with the
    /// next number, which then rises by one. After want of memory the table is as it was.
    pub fn create(&mut self, raw: Text, doc: SharedDoc) -> Result<Item, AllocError>
        requires { self.old.next < 2 ^ 63 }
        ensures ok { IfOk result (λ item. (self.new, item_of item) ≡ write self.old (Create raw doc)) }
        ensures err { OnErr result (self.new ≡ self.old) }
    {
        match self.number(raw.as_str()) {
            Some(now) => Ok(Item::Exists(now)),
            None => self.write(raw, doc),
        }
    }

    /// Adds the row, or puts it in the place of the one with its raw id, with the next number.
    ///
    /// Where a number is expected, answers `Conflict` with the number that is there, if any, where
    /// that is another; and else `Written` with the next number, which then rises by one. After want
    /// of memory the table is as it was.
    pub fn put(
        &mut self,
        raw: Text,
        doc: SharedDoc,
        expect: Option<u64>,
    ) -> Result<Item, AllocError>
        requires { self.old.next < 2 ^ 63 }
        ensures ok { IfOk result (λ item. (self.new, item_of item) ≡ write self.old (Put raw doc expect)) }
        ensures err { OnErr result (self.new ≡ self.old) }
    {
        let now = self.number(raw.as_str());
        if meets(expect, now) {
            return self.write(raw, doc);
        }
        Ok(Item::Conflict(now))
    }

    /// Takes the row of a raw id out. Takes no memory.
    ///
    /// Answers `NotFound` where there is no row; `Conflict` with its number where another is
    /// expected; and else `Written` with the next number, which then rises by one.
    pub fn delete(&mut self, raw: &str, expect: Option<u64>) -> Item
        requires { self.old.next < 2 ^ 63 }
        ensures { (self.new, item_of result) ≡ write self.old (Delete raw.now expect) }
    {
        match self.number(raw) {
            None => Item::NotFound,
            Some(now) => {
                if meets(expect, Some(now)) {
                    self.erase(raw)
                } else {
                    Item::Conflict(Some(now))
                }
            }
        }
    }

    /// Does one write. After want of memory the table is as it was.
    pub fn apply(&mut self, write: Write) -> Result<Item, AllocError>
        requires { self.old.next < 2 ^ 63 }
        ensures ok { IfOk result (λ item. (self.new, item_of item) ≡ done self.old (write_of write)) }
        ensures err { OnErr result (self.new ≡ self.old) }
    {
        match write {
            Write::Create { raw, doc } => self.create(raw, doc),
            Write::Put { raw, doc, expect } => self.put(raw, doc, expect),
            Write::Delete { raw, expect } => Ok(self.delete(raw.as_str(), expect)),
        }
    }

    /// Copies of the first `n` rows, or of all where there are fewer, whose raw id is above `after`
    /// where that is given; or want of memory.
    pub fn take_after(&self, after: Option<&str>, n: u64) -> Result<List<Row>, AllocError>
        ensures { IfOk result (λ rows. entries rows ≡ take n (rows_above (option_copied after.entry) self.now.rows)) }
    {
        let rows = self.rows.as_slice();
        let mut out = Vec::new(*self.rows.allocator());
        for i in 0..rows.len() {
            let row = &rows[i];
            push_if(&mut out, row, is_after(row, after), n)?;
        }
        Ok(List::from_vec(out))
    }

    /// An equal table; or want of memory.
    pub fn snapshot(&self) -> Result<ListTable, AllocError>
        ensures { IfOk result (λ t. t ≡ self.now) }
    {
        Ok(ListTable {
            rows: self.rows.clone()?,
            next: self.next,
        })
    }

    /// A table of the same raw ids and documents with the numbers 0, 1, .. in order, whose next
    /// number is their count; or want of memory.
    pub fn renumbered(&self) -> Result<ListTable, AllocError>
        ensures { IfOk result (λ t. t ≡ renumbered self.now) }
    {
        let rows = self.rows.as_slice();
        let mut out = Vec::new(*self.rows.allocator());
        for i in 0..rows.len() {
            push_counted(&mut out, &rows[i], 0)?;
        }
        Ok(ListTable {
            rows: out,
            next: rows.len() as u64,
        })
    }
}
