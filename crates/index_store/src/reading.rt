ghost use Rattle.std.specs.Prelude.{◌≡◌, IfOk, IsTrue, Some};
ghost use Rattle.std.specs.Option.{option_copied, option_map};
ghost use Rattle.race_model.specs.Stores.{found, found_one};
ghost use Rattle.base_model.specs.Keyed.{at};
ghost use Rattle.query_model.specs.Queries.{select};
ghost use Rattle.doc_query.specs.Mapped.{query_of, cells_of, holds_of};
ghost use Rattle.doc_table.specs.Tables.{entry_of};
ghost use Rattle.index_store.specs.Plain.{rows_from};
ghost use Rattle.index_store.specs.Serves.{found_of};

use doc_query::{Query, Selected, Selection, Sort};
use doc_table::DocTable;
use plain_data::{List, Text};
use saved_doc::Row;
use std::alloc::{AllocError, Global};

/// The page of the table's rows that a query selects. Only the rows of the page are copied. Where no
/// more is asked than that the rows come after a raw id, no other row is looked at.
pub fn selected(alloc: Global, table: &DocTable, query: &Query) -> Result<Selected, AllocError>
    ensures total { IfOk result (λ s. s.total ≡ (select holds_of).total (query_of query.now) table.now.rows) }
    ensures rows { IfOk result (λ s. cells_of s.rows ≡ (select holds_of).rows (query_of query.now) table.now.rows) }
{
    match &query.take {
        Some(most) if asks_no_more(query) => front(table, text_of(&query.after), *most),
        _ => scanned(alloc, table, query),
    }
}

/// Whether nothing is asked of a row but that it comes after a raw id, if one is given, and the rows
/// are asked for in rising order from the first on.
fn asks_no_more(query: &Query) -> bool
    ensures { IsTrue result → query_of query.now ≡ rows_from query.now.after query.now.take }
{
    query.types.is_none()
        && query.not_types.is_empty()
        && query.space.is_none()
        && query.reference.is_none()
        && query.origin.is_none()
        && query.outdated.is_empty()
        && query.filter.is_none()
        && query.sort == Sort::Raw
        && !query.descending
        && query.skip == 0
}

/// The text, if there is one.
fn text_of(text: &Option<Text>) -> Option<&str>
    ensures { option_copied result ≡ text.now }
{
    match text {
        Some(text) => Some(text.as_str()),
        None => None,
    }
}

/// At most `most` rows that come after a raw id, if one is given, and how many come after it.
fn front(table: &DocTable, after: Option<&str>, most: u64) -> Result<Selected, AllocError>
    ensures total { IfOk result (λ s. s.total ≡ (select holds_of).total (rows_from (option_copied after.entry) (Some most)) table.now.rows) }
    ensures rows { IfOk result (λ s. cells_of s.rows ≡ (select holds_of).rows (rows_from (option_copied after.entry) (Some most)) table.now.rows) }
{
    Ok(Selected {
        total: table.count_after(after),
        rows: table.take_after(after, most)?,
    })
}

/// The page of the rows that a query selects, each row looked at.
#[tactic(auto, unfolding(query_model::specs::Queries::chosen))]
fn scanned(alloc: Global, table: &DocTable, query: &Query) -> Result<Selected, AllocError>
    ensures total { IfOk result (λ s. s.total ≡ (select holds_of).total (query_of query.now) table.now.rows) }
    ensures rows { IfOk result (λ s. cells_of s.rows ≡ (select holds_of).rows (query_of query.now) table.now.rows) }
{
    let mut selection = Selection::new(alloc);
    let mut rows = table.rows();
    while let Some(row) = rows.next() {
        selection.add(row, query)?;
    }
    selection.finish(query)
}

/// A copy of the row of a raw id, if there is one.
fn found_row(table: &DocTable, raw: &str) -> Result<Option<Row>, AllocError>
    ensures { IfOk result (λ row. option_map entry_of row ≡ found_one (at raw.now table.now.rows) raw.now) }
{
    match table.get(raw) {
        Some(row) => Ok(Some(row.clone()?)),
        None => Ok(None),
    }
}

/// For each raw id a copy of its row, or none.
pub fn found_rows(
    alloc: Global,
    table: &DocTable,
    raws: &List<Text>,
) -> Result<List<Option<Row>>, AllocError>
    ensures { IfOk result (λ rows. found_of rows ≡ found table.now.rows raws.now) }
{
    let mut rows = List::new(alloc);
    for raw in raws.as_slice() {
        rows.push(found_row(table, raw.as_str())?)?;
    }
    Ok(rows)
}
