ghost use Rattle.std.specs.Prelude.{◌≡◌, [], ◌∷◌, ◌++◌, map, length, take, drop, IfOk, OnOk, OnErr, if◌then◌else◌};
ghost use Rattle.race_model.specs.Stores.{Rows};
ghost use Rattle.document_model.specs.Documents.{Doc as Document};
ghost use Rattle.so_js.specs.declared.js.Js.{Js};
ghost use Rattle.query_model.specs.Queries.{selects, chosen, limited, in_order, select as selection_of};
ghost use Rattle.doc_query.specs.Mapped.{query_of, cell_of, cells_of, holds_of};

use crate::fitting::fits;
use crate::query::Query;
use crate::sorting::sort;
use plain_data::List;
use saved_doc::Row;
use std::alloc::{AllocError, Global};
use std::marker::Model;

/// The page of the rows that a query selects.
#[derive(Clone, Debug, Drop)]
pub struct Selected {
    /// How many rows the query selects, on this page or not.
    pub total: u64,
    pub rows: List<Row>,
}

/// The rows that a query selects among rows that come one after another. Contracts see the rows.
#[derive(Debug, Drop)]
pub struct Selection<'a> {
    rows: Vec<&'a Row>,
}

impl<'a> Model for Selection<'a> {
    ghost use Rattle.std.specs.Prelude.{map};
    ghost use Rattle.race_model.specs.Stores.{Rows};
    ghost use Rattle.document_model.specs.Documents.{Doc as Document};
    ghost use Rattle.so_js.specs.declared.js.Js.{Js};
    ghost use Rattle.doc_query.specs.RowsCode.{rows_code};

    ghost Value = { Rows (Document Js) };

    ghost coded = { rows_code };

    ghost use Rattle.doc_query.specs.Mapped.{cells_of};

    ghost view = { λ s. cells_of (map (λ r. r.now) s.rows.items) };
}

impl<'a> Selection<'a> {
    /// No row so far, which takes no memory.
    pub fn new(alloc: Global) -> Selection<'a>
        ensures { result ≡ [] }
    {
        Selection {
            rows: Vec::new(alloc),
        }
    }

    /// Adds the row where it fits the query. After want of memory nothing was added.
    pub fn add(&mut self, row: &'a Row, query: &Query) -> Result<(), AllocError>
        ensures ok { OnOk result (self.new ≡ (if selects holds_of (query_of query.now) row.now.raw row.now.doc then self.old ++ cell_of row.now ∷ [] else self.old)) }
        ensures goes_on { OnOk result ((rest : Rows (Document Js)) → self.new ++ chosen holds_of (query_of query.now) rest ≡ self.old ++ chosen holds_of (query_of query.now) (cell_of row.now ∷ rest)) }
        ensures err { OnErr result (self.new ≡ self.old) }
    {
        if fits(row, query) {
            self.rows.push(row)?;
        }
        Ok(())
    }

    /// The query's page of the rows, which were added in rising order of raw id. Only the rows of
    /// the page are copied, and a copy shares its document.
    pub fn finish(self, query: &Query) -> Result<Selected, AllocError>
        ensures total { IfOk result (λ s. s.total ≡ length self.entry) }
        ensures rows { IfOk result (λ s. cells_of s.rows ≡ limited query.now.take (drop query.now.skip (in_order query.now.sort query.now.descending self.entry))) }
    {
        let mut rows = self.rows;
        let total = rows.len() as u64;
        let alloc = *rows.allocator();
        sort(&mut rows, query)?;
        let rows = copied(alloc, page_of(rows.as_slice(), query))?;
        Ok(Selected { total, rows })
    }
}

fn page_of<'b, 'a>(rows: &'b [&'a Row], query: &Query) -> &'b [&'a Row]
    ensures { cells_of (map (λ r. r.now) result.now) ≡ limited query.now.take (drop query.now.skip (cells_of (map (λ r. r.now) rows.now))) }
{
    let rest = behind(rows, query.skip);
    match query.take {
        Some(most) => front(rest, most),
        None => rest,
    }
}

fn behind<'b, 'a>(rows: &'b [&'a Row], skip: u64) -> &'b [&'a Row]
    ensures { result.now ≡ drop skip rows.now }
{
    let start = rows.len().min(skip as usize);
    &rows[start..]
}

fn front<'b, 'a>(rows: &'b [&'a Row], most: u64) -> &'b [&'a Row]
    ensures { result.now ≡ take most rows.now }
{
    let end = rows.len().min(most as usize);
    &rows[..end]
}

fn copied(alloc: Global, rows: &[&Row]) -> Result<List<Row>, AllocError>
    ensures { IfOk result (λ all. all ≡ map (λ r. r.now) rows.now) }
{
    let mut all = List::new(alloc);
    for row in rows {
        let row: &Row = row;
        all.push(row.clone()?)?;
    }
    Ok(all)
}

/// The rows that the query selects, in its order, after `skip` of them and at most `take`; the total
/// counts all that are selected. The rows stand in rising order of raw id.
pub fn select(alloc: Global, rows: &[Row], query: &Query) -> Result<Selected, AllocError>
    ensures total { IfOk result (λ s. s.total ≡ (selection_of holds_of).total (query_of query.now) (cells_of rows.now)) }
    ensures rows { IfOk result (λ s. cells_of s.rows ≡ (selection_of holds_of).rows (query_of query.now) (cells_of rows.now)) }
{
    let mut selection = Selection::new(alloc);
    for row in rows {
        selection.add(row, query)?;
    }
    selection.finish(query)
}
