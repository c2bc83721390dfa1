ghost use Rattle.std.specs.Prelude.{◌≡◌, ◌<◌, ◌^◌, IfOk, OnErr, take, length};
ghost use Rattle.std.specs.Option.{option_copied, option_map};
ghost use Rattle.base_model.specs.Keyed.{at};
ghost use Rattle.race_model.specs.Stores.{empty_table, found_one, write, write as done, written, dropped, renumbered};
ghost use Rattle.race_model.specs.Stores.Write.{Create, Put, Delete};
ghost use Rattle.doc_table.specs.Pages.{rows_of, IsPaged, IsSpot};
ghost use Rattle.doc_table.specs.Tables.{IsTable, entry_of, entries, item_of, write_of, rows_above, table_of};

use crate::copies::{count_pages, share, take_rows};
use crate::counting::count_above;
use crate::page::SharedPage;
use crate::pages::{Spot, clear_seated, find, look_in, put_seated};
use crate::place::meets;
use crate::reader::Rows;
use crate::spare::SparePage;
use crate::writes::{Item, Write};
use plain_data::{List, Text};
use saved_doc::{Row, SharedDoc};
use std::alloc::{AllocError, Global};
use std::marker::Model;

/// A table: rows in rising order of raw id, and the number of the next write.
///
/// Contracts see the table of the model. The rows stand in pages, which snapshots share; the memory of
/// pages to come is the table's own.
#[derive(Debug, Drop)]
pub struct DocTable {
    pages: Vec<SharedPage>,
    spares: Vec<SparePage>,
    next: u64,
}

impl Model for DocTable {
    ghost use Rattle.document_model.specs.Documents.{Doc as Document};
    ghost use Rattle.race_model.specs.Stores.{Table};
    ghost use Rattle.so_js.specs.declared.js.Js.{Js};
    ghost use Rattle.doc_table.specs.Tables.{table_of, table_code};
    ghost use Rattle.doc_table.specs.Pages.{rows_of, IsPaged};

    ghost Value = { Table (Document Js) };

    ghost coded = { table_code };

    ghost view = { λ t. table_of (rows_of t.pages.items) t.next };

    ghost invariant = { λ t. IsPaged t.pages.items t.next };
}

impl DocTable {
    /// A table of no rows, whose next number is 0. Takes no memory.
    pub fn empty(alloc: Global) -> DocTable
        ensures { result ≡ empty_table }
    {
        DocTable {
            pages: Vec::new(alloc),
            spares: Vec::new(alloc),
            next: 0,
        }
    }

    /// The number of the next write. Takes no memory.
    pub fn next(&self) -> u64
        ensures value { result ≡ self.now.next }
        ensures table { IsTable self.now }
    {
        self.next
    }

    /// The row of a raw id, if there is one. Takes no memory.
    pub fn get(&self, raw: &str) -> Option<&Row>
        ensures { option_map entry_of (option_copied result) ≡ found_one (at raw.now self.now.rows) raw.now }
    {
        look_in(self.pages.as_slice(), raw)
    }

    /// Lends the rows in order. Takes no memory.
    pub fn rows(&self) -> Rows<'_>
        ensures { result ≡ self.now.rows }
    {
        Rows::of(self.pages.as_slice())
    }

    /// Adds the row, which no row has the raw id of, with the next number.
    ///
    /// Answers `Exists` with the number of the row where there is one, and else `Written` with the
    /// next number, which then rises by one. After want of memory the table is as it was.
    pub fn create(&mut self, raw: Text, doc: SharedDoc) -> Result<Item, AllocError>
        requires { self.old.next < 2 ^ 63 }
        ensures ok { IfOk result (λ item. (self.new, item_of item) ≡ write self.old (Create raw doc)) }
        ensures err { OnErr result (self.new ≡ self.old) }
    {
        let (spot, now) = find(self.pages.as_slice(), raw.as_str());
        match now {
            Some(now) => Ok(Item::Exists(now)),
            None => write_at(
                &mut self.pages,
                &mut self.spares,
                &mut self.next,
                spot,
                raw,
                doc,
            ),
        }
    }

    /// Adds the row, or puts it in the place of the one with its raw id, with the next number.
    ///
    /// Where a number is expected, answers `Conflict` with the number that is there, if any, where
    /// that is another; and else `Written` with the next number, which then rises by one. After want
    /// of memory the table is as it was.
    pub fn put(
        &mut self,
        raw: Text,
        doc: SharedDoc,
        expect: Option<u64>,
    ) -> Result<Item, AllocError>
        requires { self.old.next < 2 ^ 63 }
        ensures ok { IfOk result (λ item. (self.new, item_of item) ≡ write self.old (Put raw doc expect)) }
        ensures err { OnErr result (self.new ≡ self.old) }
    {
        let (spot, now) = find(self.pages.as_slice(), raw.as_str());
        if meets(expect, now) {
            return write_at(
                &mut self.pages,
                &mut self.spares,
                &mut self.next,
                spot,
                raw,
                doc,
            );
        }
        Ok(Item::Conflict(now))
    }

    /// Takes the row of a raw id out. Takes no memory.
    ///
    /// Answers `NotFound` where there is no row; `Conflict` with its number where another is
    /// expected; and else `Written` with the next number, which then rises by one.
    pub fn delete(&mut self, raw: &str, expect: Option<u64>) -> Item
        requires { self.old.next < 2 ^ 63 }
        ensures { (self.new, item_of result) ≡ write self.old (Delete raw.now expect) }
    {
        let (spot, now) = find(self.pages.as_slice(), raw);
        match now {
            None => Item::NotFound,
            Some(now) => {
                if meets(expect, Some(now)) {
                    erase_at(&mut self.pages, &mut self.next, spot, raw)
                } else {
                    Item::Conflict(Some(now))
                }
            }
        }
    }

    /// Does one write. After want of memory the table is as it was.
    pub fn apply(&mut self, write: Write) -> Result<Item, AllocError>
        requires { self.old.next < 2 ^ 63 }
        ensures ok { IfOk result (λ item. (self.new, item_of item) ≡ done self.old (write_of write)) }
        ensures err { OnErr result (self.new ≡ self.old) }
    {
        match write {
            Write::Create { raw, doc } => self.create(raw, doc),
            Write::Put { raw, doc, expect } => self.put(raw, doc, expect),
            Write::Delete { raw, expect } => Ok(self.delete(raw.as_str(), expect)),
        }
    }

    /// Copies of the first `n` rows, or of all where there are fewer, whose raw id is above `after`
    /// where that is given; or want of memory.
    pub fn take_after(&self, after: Option<&str>, n: u64) -> Result<List<Row>, AllocError>
        ensures { IfOk result (λ rows. entries rows ≡ take n (rows_above (option_copied after.entry) self.now.rows)) }
    {
        let rows = take_rows(*self.pages.allocator(), self.pages.as_slice(), after, n)?;
        Ok(List::from_vec(rows))
    }

    /// How many rows have a raw id above `after`, or how many rows there are. Takes no memory.
    pub fn count_after(&self, after: Option<&str>) -> u64
        ensures { result ≡ length (rows_above (option_copied after.entry) self.now.rows) }
    {
        let _next = self.next;
        count_above(self.pages.as_slice(), after)
    }

    /// An equal table, which shares the pages; or want of memory.
    pub fn snapshot(&self) -> Result<DocTable, AllocError>
        ensures { IfOk result (λ t. t ≡ self.now) }
    {
        let alloc = *self.pages.allocator();
        Ok(DocTable {
            pages: share(alloc, self.pages.as_slice())?,
            spares: Vec::new(alloc),
            next: self.next,
        })
    }

    /// A table of the same raw ids and documents with the numbers 0, 1, .. in order, whose next
    /// number is their count; or want of memory.
    pub fn renumbered(&self) -> Result<DocTable, AllocError>
        ensures { IfOk result (λ t. t ≡ renumbered self.now) }
    {
        let _next = self.next;
        let alloc = *self.pages.allocator();
        let (pages, next) = count_pages(alloc, self.pages.as_slice())?;
        Ok(DocTable {
            pages,
            spares: Vec::new(alloc),
            next,
        })
    }
}

/// Puts a row at this spot, which is its raw id's, with the next number.
fn write_at(
    pages: &mut Vec<SharedPage>,
    spares: &mut Vec<SparePage>,
    next: &mut u64,
    spot: Spot,
    raw: Text,
    doc: SharedDoc,
) -> Result<Item, AllocError>
    requires paged { IsPaged pages.old.items next.old }
    requires spot { IsSpot raw pages.old.items spot }
    requires room { next.old < 2 ^ 63 }
    ensures ok { IfOk result (λ item. (item ≡ Item.Written next.old) × (table_of (rows_of pages.new.items) next.new ≡ written (table_of (rows_of pages.old.items) next.old) raw doc)) }
    ensures err { OnErr result (table_of (rows_of pages.new.items) next.new ≡ table_of (rows_of pages.old.items) next.old) }
    ensures paged { IsPaged pages.new.items next.new }
{
    let seq = *next;
    put_seated(pages, spares, spot, Row { raw, seq, doc })?;
    *next += 1;
    Ok(Item::Written(seq))
}

/// Takes out a raw id's row, which stands at this spot, and counts the next number up.
fn erase_at(pages: &mut Vec<SharedPage>, next: &mut u64, spot: Spot, raw: &str) -> Item
    requires paged { IsPaged pages.old.items next.old }
    requires spot { IsSpot raw.now pages.old.items spot }
    requires room { next.old < 2 ^ 63 }
    ensures item { result ≡ Item.Written next.old }
    ensures table { table_of (rows_of pages.new.items) next.new ≡ dropped (table_of (rows_of pages.old.items) next.old) raw.now }
    ensures paged { IsPaged pages.new.items next.new }
{
    let seq = *next;
    clear_seated(pages, spot, raw);
    *next += 1;
    Item::Written(seq)
}
