ghost use Rattle.std.specs.Prelude.{◌≡◌, ◌<◌, ◌++◌, [], ◌∷◌, length, OnOk, OnErr, IfOk, MatchResult, MatchOption, ◌+◌, false};
ghost use Rattle.std.specs.Option.{option_copied};
ghost use Rattle.doc_table.specs.RowLists.{found, with_row, below, above};
ghost use Rattle.base_model.specs.Keyed.{at};
ghost use Rattle.doc_table.specs.Marks.{IsMarkOf};
ghost use Rattle.doc_table.specs.Pages.{rows_of, IsPages, IsPageOf, IsSpot};
ghost use Rattle.doc_table.specs.Tables.{entries, number_in};

use crate::mark::Mark;
use crate::page::{
    SharedPage, has_room, is_dead, put_alone, put_found, rewritten, starts_above, upper_half,
    without_row,
};
use crate::shared_row::SharedRow;
use crate::spare::SparePage;
use saved_doc::Row;
use std::alloc::AllocError;

/// Where a raw id stands in a list of pages, or would: its page, and its place among that page's rows.
#[derive(Clone, Copy, Debug)]
pub struct Spot {
    pub page: usize,
    pub place: Result<usize, usize>,
}

/// Puts a row into its page, where that isn't shared and has room, or gives the row back.
fn put_in_place(
    pages: &mut Vec<SharedPage>,
    p: usize,
    row: SharedRow,
) -> Result<Option<SharedRow>, AllocError>
    requires pages { IsPages pages.old.items }
    requires place { IsPageOf row.raw pages.old.items p }
    ensures told { MatchResult result (λ back. MatchOption back (rows_of pages.new.items ≡ with_row row (rows_of pages.old.items)) (λ r. (r ≡ row) × (pages.new.items ≡ pages.old.items))) (λ _. rows_of pages.new.items ≡ rows_of pages.old.items) }
    ensures pages { IsPages pages.new.items }
{
    if !has_room(&pages[p], &row) {
        return Ok(Some(row));
    }
    match put_alone(&mut pages[p], row) {
        Err(refused) => Err(refused),
        Ok(back) => match back {
            None => Ok(None),
            Some(row) => Ok(Some(row)),
        },
    }
}

/// Moves the upper half of a page to a page behind it, where the page is full, no row of it was taken
/// out and nothing shares it. Tells whether it did.
fn halve(
    pages: &mut Vec<SharedPage>,
    spares: &mut Vec<SparePage>,
    p: usize,
) -> Result<bool, AllocError>
    requires pages { IsPages pages.old.items }
    requires within { p < length pages.old.items }
    ensures stays { IfOk result (λ done. done ≡ false → pages.new.items ≡ pages.old.items) }
    ensures rows { rows_of pages.new.items ≡ rows_of pages.old.items }
    ensures pages { IsPages pages.new.items }
    ensures some { 0 < length pages.new.items }
{
    let count = pages.len();
    pages.reserve(1)?;
    match upper_half(spares, count, &mut pages[p])? {
        Some(upper) => {
            pages.insert(p + 1, upper)?;
            Ok(true)
        }
        None => Ok(false),
    }
}

/// The page in which a row can stand, after a page without room for it was halved where it can be.
fn with_room(
    pages: &mut Vec<SharedPage>,
    spares: &mut Vec<SparePage>,
    p: usize,
    row: &SharedRow,
) -> Result<usize, AllocError>
    requires pages { IsPages pages.old.items }
    requires place { IsPageOf row.now.raw pages.old.items p }
    ensures place { IfOk result (λ q. IsPageOf row.now.raw pages.new.items q) }
    ensures rows { rows_of pages.new.items ≡ rows_of pages.old.items }
    ensures pages { IsPages pages.new.items }
{
    if has_room(&pages[p], row) {
        return Ok(p);
    }
    if !halve(pages, spares, p)? {
        return Ok(p);
    }
    let raw = row.row().raw.as_str();
    Ok(page_of(pages.as_slice(), raw, Mark::of(raw)))
}

/// Puts a row into its page.
fn put_row(
    pages: &mut Vec<SharedPage>,
    spares: &mut Vec<SparePage>,
    p: usize,
    row: SharedRow,
) -> Result<(), AllocError>
    requires pages { IsPages pages.old.items }
    requires place { IsPageOf row.raw pages.old.items p }
    ensures ok { OnOk result (rows_of pages.new.items ≡ with_row row (rows_of pages.old.items)) }
    ensures err { OnErr result (rows_of pages.new.items ≡ rows_of pages.old.items) }
    ensures pages { IsPages pages.new.items }
{
    let q = with_room(pages, spares, p, &row)?;
    match put_in_place(pages, q, row)? {
        None => Ok(()),
        Some(row) => put_copied(pages, q, row),
    }
}

/// Puts a row into a new page of its page's live rows, or into two.
fn put_copied(pages: &mut Vec<SharedPage>, p: usize, row: SharedRow) -> Result<(), AllocError>
    requires pages { IsPages pages.old.items }
    requires place { IsPageOf row.raw pages.old.items p }
    ensures ok { OnOk result (rows_of pages.new.items ≡ with_row row (rows_of pages.old.items)) }
    ensures err { OnErr result (rows_of pages.new.items ≡ rows_of pages.old.items) }
    ensures pages { IsPages pages.new.items }
{
    let alloc = *pages.allocator();
    let mut rows = rewritten(alloc, &pages[p], row)?;
    if rows.len() <= 64 {
        pages[p] = SharedPage::of(alloc, rows)?;
        return Ok(());
    }
    let right = rows.split_off(32)?;
    let left = SharedPage::of(alloc, rows)?;
    let right = SharedPage::of(alloc, right)?;
    pages.insert(p + 1, right)?;
    pages[p] = left;
    Ok(())
}

/// Puts a row at its place in its page, where the page takes it there as it stands, or gives the row
/// back.
fn put_in_spot(
    pages: &mut Vec<SharedPage>,
    spot: Spot,
    row: SharedRow,
) -> Result<Option<SharedRow>, AllocError>
    requires pages { IsPages pages.old.items }
    requires some { 0 < length pages.old.items }
    requires spot { IsSpot row.raw pages.old.items spot }
    ensures told { MatchResult result (λ back. MatchOption back (rows_of pages.new.items ≡ with_row row (rows_of pages.old.items)) (λ r. (r ≡ row) × (pages.new.items ≡ pages.old.items))) (λ _. pages.new.items ≡ pages.old.items) }
    ensures pages { IsPages pages.new.items }
{
    match put_found(&mut pages[spot.page], spot.place, row) {
        Err(refused) => Err(refused),
        Ok(back) => match back {
            None => Ok(None),
            Some(row) => Ok(Some(row)),
        },
    }
}

/// The page in which a raw id, which has this mark, stands, or would.
pub fn page_of(pages: &[SharedPage], raw: &str, key: Mark) -> usize
    requires some { 0 < length pages.now }
    requires pages { IsPages pages.now }
    requires key { IsMarkOf key raw.now }
    ensures { IsPageOf raw.now pages.now result }
{
    let mut low = 0;
    let mut high = pages.len();
    while low < high {
        let mid = low + (high - low) / 2;
        if starts_above(&pages[mid], raw, key) {
            high = mid;
        } else {
            low = mid + 1;
        }
    }
    low.saturating_sub(1)
}

/// Puts a row into its page, or makes the first one.
pub fn put_seated(
    pages: &mut Vec<SharedPage>,
    spares: &mut Vec<SparePage>,
    spot: Spot,
    row: Row,
) -> Result<(), AllocError>
    requires pages { IsPages pages.old.items }
    requires spot { IsSpot row.raw pages.old.items spot }
    ensures ok { OnOk result (rows_of pages.new.items ≡ with_row row (rows_of pages.old.items)) }
    ensures err { OnErr result (rows_of pages.new.items ≡ rows_of pages.old.items) }
    ensures pages { IsPages pages.new.items }
{
    let row = SharedRow::new(*pages.allocator(), row)?;
    if pages.is_empty() {
        return first_page(pages, row);
    }
    match put_in_spot(pages, spot, row)? {
        None => Ok(()),
        Some(row) => put_row(pages, spares, spot.page, row),
    }
}

/// Makes the first page, of one row.
fn first_page(pages: &mut Vec<SharedPage>, row: SharedRow) -> Result<(), AllocError>
    requires { pages.old.items ≡ [] }
    ensures ok { OnOk result (rows_of pages.new.items ≡ row ∷ []) }
    ensures err { OnErr result (pages.new.items ≡ pages.old.items) }
    ensures pages { IsPages pages.new.items }
{
    let alloc = *pages.allocator();
    let mut rows = Vec::new(alloc);
    rows.push(row)?;
    pages.push(SharedPage::of(alloc, rows)?)?;
    Ok(())
}

/// Takes out a raw id's row, which stands here or nowhere, and a page that is emptied by it.
pub fn clear_seated(pages: &mut Vec<SharedPage>, spot: Spot, raw: &str)
    requires pages { IsPages pages.old.items }
    requires spot { IsSpot raw.now pages.old.items spot }
    ensures rows { rows_of pages.new.items ≡ below raw.now (rows_of pages.old.items) ++ above raw.now (rows_of pages.old.items) }
    ensures pages { IsPages pages.new.items }
{
    if !pages.is_empty() {
        clear_row(pages, spot, raw);
    }
}

/// Clears a raw id's bit in its page, and takes an emptied page out.
fn clear_row(pages: &mut Vec<SharedPage>, spot: Spot, raw: &str)
    requires pages { IsPages pages.old.items }
    requires some { 0 < length pages.old.items }
    requires spot { IsSpot raw.now pages.old.items spot }
    ensures rows { rows_of pages.new.items ≡ below raw.now (rows_of pages.old.items) ++ above raw.now (rows_of pages.old.items) }
    ensures pages { IsPages pages.new.items }
{
    let p = spot.page;
    let held = &pages[p];
    let live = without_row(held, raw, spot.place);
    if is_dead(held, live) {
        drop(pages.remove(p));
    } else {
        pages[p].live = live;
    }
}

/// The row of a raw id.
pub fn look_in<'a>(pages: &'a [SharedPage], raw: &str) -> Option<&'a Row>
    requires { IsPages pages.now }
    ensures { option_copied result ≡ found raw.now (rows_of pages.now) }
{
    if pages.is_empty() {
        return None;
    }
    let p = page_of(pages, raw, Mark::of(raw));
    let held = &pages[p];
    held.look(raw, held.place(raw))
}

/// Where a raw id stands, or would, and the number of its row, if there is one.
pub fn find(pages: &[SharedPage], raw: &str) -> (Spot, Option<u64>)
    requires { IsPages pages.now }
    ensures spot { IsSpot raw.now pages.now result.0 }
    ensures number { result.1 ≡ number_in (at raw.now (entries (rows_of pages.now))) }
{
    if pages.is_empty() {
        let nowhere = Spot {
            page: 0,
            place: Err(0),
        };
        return (nowhere, None);
    }
    let page = page_of(pages, raw, Mark::of(raw));
    let held = &pages[page];
    let place = held.place(raw);
    let spot = Spot { page, place };
    match held.look(raw, place) {
        Some(row) => (spot, Some(row.seq)),
        None => (spot, None),
    }
}
