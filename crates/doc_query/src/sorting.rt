ghost use Rattle.std.specs.Prelude.{◌≡◌, true, false, map, OnOk};
ghost use Rattle.query_model.specs.Queries.{in_order, by_time, time_of as time_in};
ghost use Rattle.doc_query.specs.Mapped.{cells_of};

use crate::query::Query;
use query_model::Sort;
use saved_doc::Row;
use std::alloc::AllocError;

/// Puts rows that stand in rising order of raw id into the query's order.
pub fn sort(rows: &mut Vec<&Row>, query: &Query) -> Result<(), AllocError>
    ensures { OnOk result (cells_of (map (λ r. r.now) rows.new.items) ≡ in_order query.now.sort query.now.descending (cells_of (map (λ r. r.now) rows.old.items))) }
{
    match query.sort {
        Sort::UpdatedAt if query.descending => sort_latest_first(rows),
        Sort::UpdatedAt => sort_earliest_first(rows),
        Sort::Raw => {
            if query.descending {
                rows.reverse();
            }
            Ok(())
        }
    }
}

fn sort_earliest_first(rows: &mut Vec<&Row>) -> Result<(), AllocError>
    ensures { OnOk result (cells_of (map (λ r. r.now) rows.new.items) ≡ by_time false (cells_of (map (λ r. r.now) rows.old.items))) }
{
    rows.sort_by(|first, second| time_of(first).cmp(time_of(second)))?;
    Ok(())
}

fn sort_latest_first(rows: &mut Vec<&Row>) -> Result<(), AllocError>
    ensures { OnOk result (cells_of (map (λ r. r.now) rows.new.items) ≡ by_time true (cells_of (map (λ r. r.now) rows.old.items))) }
{
    rows.sort_by(|first, second| time_of(second).cmp(time_of(first)))?;
    Ok(())
}

fn time_of<'a>(row: &'a Row) -> &'a str
    ensures { result.now ≡ time_in row.now.doc.updated_at }
{
    match &row.doc.get().updated_at {
        Some(time) => time.as_str(),
        None => "",
    }
}
