ghost use Rattle.std.specs.Prelude.{◌≡◌, ◌==◌, ◌<◌, ◌≤◌, ◌++◌, [], ◌∷◌, length, take, drop, OnOk, IfOk, false, ◌&&◌, ◌^◌, ◌+◌, if◌then◌else◌};
ghost use Rattle.std.specs.Option.{option_copied};
ghost use Rattle.std.specs.Int.{bit_at};
ghost use Rattle.doc_table.specs.RowLists.{IsRising, rows_after, is_after, counted_from, Each, IsAllAfter};
ghost use Rattle.doc_table.specs.Pages.{page_rows, live_rows, all_rows, rows_of, IsPages, IsSound};

use crate::mark::Mark;
use crate::page::{SharedPage, is_live};
use crate::pages::page_of;
use crate::place::{counted, is_after, push_if};
use crate::shared_row::SharedRow;
use saved_doc::Row;
use std::alloc::{AllocError, Global};

/// Whether a row is live and above a raw id, if one is given.
pub fn keeps(live: u64, at: usize, row: &SharedRow, after: Option<&str>) -> bool
    requires { at < 64 }
    ensures { result ≡ ((bit_at live at == 1) && is_after (option_copied after.entry) row.now) }
{
    is_live(live, at) && is_after(row.row(), after)
}

/// Pushes copies of a page's rows above a raw id, up to a number of rows, row by row.
fn push_each(
    out: &mut Vec<Row>,
    held: &SharedPage,
    after: Option<&str>,
    n: u64,
) -> Result<(), AllocError>
    requires sound { IsSound held.now }
    requires few { length out.old.items ≤ n }
    ensures { OnOk result (out.new.items ≡ take n (out.old.items ++ rows_after (option_copied after.entry) (live_rows held.now))) }
{
    let rows = held.rows();
    for i in 0..rows.len() {
        let row = &rows[i];
        push_if(out, row.row(), keeps(held.live, i, row, after), n)?;
    }
    Ok(())
}

/// Pushes copies of a page's rows above a raw id, up to a number of rows. Those of a page behind the
/// first are all above it, and not compared.
fn push_page(
    out: &mut Vec<Row>,
    held: &SharedPage,
    first: bool,
    after: Option<&str>,
    n: u64,
) -> Result<(), AllocError>
    requires sound { IsSound held.now }
    requires few { length out.old.items ≤ n }
    requires later { first ≡ false → IsAllAfter (option_copied after) (live_rows held.now) }
    ensures { OnOk result (out.new.items ≡ take n (out.old.items ++ rows_after (option_copied after.entry) (live_rows held.now))) }
{
    if first {
        push_each(out, held, after, n)
    } else {
        push_each(out, held, None, n)
    }
}

/// The first page that can have rows above a raw id. All rows of the pages behind it are above it.
pub fn start_of(pages: &[SharedPage], after: Option<&str>) -> usize
    requires { IsPages pages.now }
    ensures within { result ≤ length pages.now }
    ensures later { IsAllAfter (option_copied after.entry) (rows_of (drop (result + 1) pages.now)) }
    ensures rest { rows_after (option_copied after.entry) (rows_of (drop result pages.now)) ≡ rows_after (option_copied after.entry) (rows_of pages.now) }
{
    match after {
        None => 0,
        Some(raw) => {
            if pages.is_empty() {
                return 0;
            }
            page_of(pages, raw, Mark::of(raw))
        }
    }
}

/// Copies of the first rows above a raw id, which all rows behind the first page are.
fn take_pages(
    alloc: Global,
    pages: &[SharedPage],
    after: Option<&str>,
    n: u64,
) -> Result<Vec<Row>, AllocError>
    requires sound { Each IsSound pages.now }
    requires later { IsAllAfter (option_copied after) (rows_of (drop 1 pages.now)) }
    ensures { IfOk result (λ v. v.items ≡ take n (rows_after (option_copied after.entry) (rows_of pages.now))) }
{
    let mut out = Vec::new(alloc);
    for i in 0..pages.len() {
        if out.len() as u64 >= n {
            return Ok(out);
        }
        push_page(&mut out, &pages[i], i == 0, after, n)?;
    }
    Ok(out)
}

/// Copies of the first rows above a raw id, which is looked for by halves.
pub fn take_rows(
    alloc: Global,
    pages: &[SharedPage],
    after: Option<&str>,
    n: u64,
) -> Result<Vec<Row>, AllocError>
    requires { IsPages pages.now }
    ensures { IfOk result (λ v. v.items ≡ take n (rows_after (option_copied after.entry) (rows_of pages.now))) }
{
    let start = start_of(pages, after);
    take_pages(alloc, &pages[start..], after, n)
}

/// Pushes a page, which is shared.
fn push_shared(out: &mut Vec<SharedPage>, held: &SharedPage) -> Result<(), AllocError>
    requires { IsSound held.now }
    ensures live { OnOk result (rows_of out.new.items ≡ rows_of out.old.items ++ live_rows held.now) }
    ensures all { OnOk result (all_rows out.new.items ≡ all_rows out.old.items ++ page_rows held.now) }
    ensures sound { OnOk result (Each IsSound out.old.items → Each IsSound out.new.items) }
{
    out.push(SharedPage {
        page: held.page.clone()?,
        live: held.live,
        mark: held.mark,
    })?;
    Ok(())
}

/// The same pages, shared.
pub fn share(alloc: Global, pages: &[SharedPage]) -> Result<Vec<SharedPage>, AllocError>
    requires { IsPages pages.now }
    ensures rows { IfOk result (λ v. rows_of v.items ≡ rows_of pages.now) }
    ensures pages { IfOk result (λ v. IsPages v.items) }
{
    let mut out = Vec::with_capacity(alloc, pages.len())?;
    for i in 0..pages.len() {
        push_shared(&mut out, &pages[i])?;
    }
    Ok(out)
}

/// Pushes a copy of a row that is live, with the next of the numbers that count from `from`.
fn push_counted_if(
    out: &mut Vec<SharedRow>,
    row: &SharedRow,
    live: bool,
    from: u64,
) -> Result<(), AllocError>
    requires { from + length out.old.items < 2 ^ 64 }
    ensures { OnOk result (out.new.items ≡ out.old.items ++ (if live then (record row.now { seq = from + length out.old.items }) ∷ [] else [])) }
{
    if live {
        let alloc = *out.allocator();
        let seq = from + out.len() as u64;
        out.push(SharedRow::new(alloc, counted(row.row(), seq)?)?)?;
    }
    Ok(())
}

/// Copies of a page's live rows with the numbers that count from `from`.
fn counted_page(alloc: Global, held: &SharedPage, from: u64) -> Result<Vec<SharedRow>, AllocError>
    requires sound { IsSound held.now }
    requires few { from + length (live_rows held.now) < 2 ^ 64 }
    ensures rows { IfOk result (λ v. v.items ≡ counted_from from (live_rows held.now)) }
    ensures few { IfOk result (λ v. length v.items ≤ 64) }
{
    let rows = held.rows();
    let mut out = Vec::new(alloc);
    for i in 0..rows.len() {
        push_counted_if(&mut out, &rows[i], is_live(held.live, i), from)?;
    }
    Ok(out)
}

/// Pushes a page of rows, if there are any.
fn push_rows(
    alloc: Global,
    out: &mut Vec<SharedPage>,
    rows: Vec<SharedRow>,
) -> Result<(), AllocError>
    requires { length rows.items ≤ 64 }
    ensures live { OnOk result (rows_of out.new.items ≡ rows_of out.old.items ++ rows.items) }
    ensures all { OnOk result (all_rows out.new.items ≡ all_rows out.old.items ++ rows.items) }
    ensures sound { OnOk result (Each IsSound out.old.items → Each IsSound out.new.items) }
{
    if rows.is_empty() {
        return Ok(());
    }
    out.push(SharedPage::of(alloc, rows)?)?;
    Ok(())
}

/// New pages of the rows with numbers that count from 0, and their count.
pub fn count_pages(
    alloc: Global,
    pages: &[SharedPage],
) -> Result<(Vec<SharedPage>, u64), AllocError>
    requires pages { IsPages pages.now }
    requires rising { IsRising (rows_of pages.now) }
    requires few { length (rows_of pages.now) < 2 ^ 64 }
    ensures rows { IfOk result (λ v. rows_of v.0.items ≡ counted_from 0 (rows_of pages.now)) }
    ensures pages { IfOk result (λ v. IsPages v.0.items) }
    ensures count { IfOk result (λ v. v.1 ≡ length (rows_of pages.now)) }
{
    let mut out = Vec::new(alloc);
    let mut count = 0;
    for i in 0..pages.len() {
        let rows = counted_page(alloc, &pages[i], count)?;
        let more = rows.len() as u64;
        push_rows(alloc, &mut out, rows)?;
        count += more;
    }
    Ok((out, count))
}
