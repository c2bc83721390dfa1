ghost use Rattle.std.specs.Prelude.{◌≡◌, ◌<◌, ◌^◌, length, false};
ghost use Rattle.std.specs.Option.{option_copied};
ghost use Rattle.doc_table.specs.RowLists.{rows_after, IsAllAfter};
ghost use Rattle.doc_table.specs.Pages.{live_rows, rows_of, IsPages, IsSound};

use crate::copies::{keeps, start_of};
use crate::page::SharedPage;

/// How many live rows of a page are above a raw id, row by row.
fn count_each(held: &SharedPage, after: Option<&str>) -> u64
    requires { IsSound held.now }
    ensures { result ≡ length (rows_after (option_copied after.entry) (live_rows held.now)) }
{
    let rows = held.rows();
    let mut count = 0;
    for i in 0..rows.len() {
        if keeps(held.live, i, &rows[i], after) {
            count += 1;
        }
    }
    count
}

/// How many rows of a page are live. None of them is looked at where none was taken out.
fn count_live(held: &SharedPage) -> u64
    requires { IsSound held.now }
    ensures { result ≡ length (live_rows held.now) }
{
    if held.live == u64::MAX {
        return held.rows().len() as u64;
    }
    count_each(held, None)
}

/// How many live rows of a page are above a raw id. Those of a page behind the first all are.
fn count_in(held: &SharedPage, first: bool, after: Option<&str>) -> u64
    requires sound { IsSound held.now }
    requires later { first ≡ false → IsAllAfter (option_copied after) (live_rows held.now) }
    ensures { result ≡ length (rows_after (option_copied after.entry) (live_rows held.now)) }
{
    if first {
        count_each(held, after)
    } else {
        count_live(held)
    }
}

/// How many rows are above a raw id, or how many there are.
pub fn count_above(pages: &[SharedPage], after: Option<&str>) -> u64
    requires pages { IsPages pages.now }
    requires few { length (rows_of pages.now) < 2 ^ 64 }
    ensures { result ≡ length (rows_after (option_copied after.entry) (rows_of pages.now)) }
{
    let start = start_of(pages, after);
    let mut count = 0;
    for i in start..pages.len() {
        count += count_in(&pages[i], i == start, after);
    }
    count
}
