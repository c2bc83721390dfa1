ghost use Rattle.std.specs.Prelude.{List, ◌≡◌, ◌==◌, ◌<◌, ◌≤◌, ◌++◌, [], ◌∷◌, length, OnOk, OnErr, IfOk, MatchResult, MatchOption, false, IsTrue, ◌≢◌, ℕ, ◌+◌, if◌then◌else◌, ◌-◌, ◌^◌, IfSome, slice_get};
ghost use Rattle.std.specs.Option.{option_copied};
ghost use Rattle.std.specs.Int.{bit_at};
ghost use Rattle.std.specs.Ordering.{is_gt};
ghost use Rattle.doc_table.specs.RowLists.{Each, IsRising, order, found, with_row, below, above};
ghost use Rattle.doc_table.specs.Marks.{IsMarkOf, IsMarked};
ghost use Rattle.doc_table.specs.Place.{IsPlace};
ghost use Rattle.saved_doc.specs.declared.doc.Row.{Row};
ghost use Rattle.doc_table.specs.Pages.{live_from, page_rows, live_rows, IsSound, IsHalved};

use crate::mark::{Mark, compare_marks};
use crate::marked::{MarkedRows, place_by_halves};
use crate::place::{compare_shared, put_shared};
use crate::shared_row::SharedRow;
use crate::spare::{SparePage, take_spare};
use saved_doc::Row;
use std::alloc::{AllocError, Global};
use std::cmp::Ordering;
use std::sync::Arc;

/// A page of 1 to 64 rows, the bits of those that are live, and the mark of the first, by which most
/// searches pass the page without a look at its rows.
#[derive(Debug, Drop)]
pub struct SharedPage {
    pub page: Arc<MarkedRows>,
    pub live: u64,
    pub mark: Mark,
}

/// Whether the row at this index is live.
pub fn is_live(live: u64, at: usize) -> bool
    requires { at < 64 }
    ensures { result ≡ (bit_at live at == 1) }
{
    (live >> at) & 1 == 1
}

/// Pushes a row that is live, which is shared.
fn push_live(out: &mut Vec<SharedRow>, row: &SharedRow, live: bool) -> Result<(), AllocError>
    ensures { OnOk result (out.new.items ≡ out.old.items ++ (if live then row.now ∷ [] else [])) }
{
    if live {
        out.push(row.share()?)?;
    }
    Ok(())
}

/// The bits without one.
fn cleared(live: u64, at: usize) -> u64
    requires { at < 64 }
    ensures same { bit_at result at ≡ 0 }
    ensures others { (i : ℕ) → i < 64 → i ≢ at → bit_at result i ≡ bit_at live i }
{
    live & !(1 << at)
}

/// The row at an index.
fn row_at(rows: &[SharedRow], at: usize) -> Option<&Row>
    ensures { option_copied result ≡ slice_get rows.now at }
{
    match rows.get(at) {
        Some(row) => Some(row.row()),
        None => None,
    }
}

impl SharedPage {
    /// A page of live rows.
    pub fn of(alloc: Global, rows: Vec<SharedRow>) -> Result<SharedPage, AllocError>
        requires { length rows.items ≤ 64 }
        ensures page { IfOk result (λ h. page_rows h ≡ rows.items) }
        ensures live { IfOk result (λ h. live_rows h ≡ rows.items) }
        ensures mark { IfOk result (λ h. IsMarked h.mark rows.items) }
    {
        let rows = MarkedRows::of(rows);
        let mark = rows.first_mark();
        Ok(SharedPage {
            page: Arc::new(alloc, rows)?,
            live: u64::MAX,
            mark,
        })
    }

    /// All rows of the page.
    pub fn rows(&self) -> &[SharedRow]
        ensures { result.now ≡ page_rows self.now }
    {
        self.page.rows()
    }

    /// The place of a raw id among all rows.
    pub fn place(&self, raw: &str) -> Result<usize, usize>
        requires { IsRising (page_rows self.now) }
        ensures { IsPlace raw.now (page_rows self.now) result }
    {
        self.page.place(raw)
    }

    /// The live row of a raw id, which has this place.
    pub fn look(&self, raw: &str, place: Result<usize, usize>) -> Option<&Row>
        requires sound { IsSound self.now }
        requires place { IsPlace raw.now (page_rows self.now) place }
        ensures { option_copied result ≡ found raw.now (live_rows self.now) }
    {
        let _ = raw;
        match place {
            Ok(at) => {
                if is_live(self.live, at) {
                    row_at(self.rows(), at)
                } else {
                    None
                }
            }
            Err(_) => None,
        }
    }

    /// The live rows, shared.
    pub fn shared(&self, alloc: Global) -> Result<Vec<SharedRow>, AllocError>
        requires { IsSound self.now }
        ensures { IfOk result (λ v. v.items ≡ live_rows self.now) }
    {
        let rows = self.rows();
        let mut out = Vec::with_capacity(alloc, rows.len().saturating_add(1))?;
        for i in 0..rows.len() {
            push_live(&mut out, &rows[i], is_live(self.live, i))?;
        }
        Ok(out)
    }
}

/// The bits of a page without the row of a raw id, which has this place.
pub fn without_row(held: &SharedPage, raw: &str, place: Result<usize, usize>) -> u64
    requires sound { IsSound held.now }
    requires place { IsPlace raw.now (page_rows held.now) place }
    ensures { live_from result 0 (page_rows held.now) ≡ below raw.now (live_rows held.now) ++ above raw.now (live_rows held.now) }
{
    let _ = raw;
    match place {
        Ok(at) => cleared(held.live, at),
        Err(_) => held.live,
    }
}

/// Whether no row of a page is live by these bits.
pub fn is_dead(held: &SharedPage, live: u64) -> bool
    requires { IsSound held.now }
    ensures dead { IsTrue result → live_from live 0 (page_rows held.now) ≡ [] }
    ensures alive { result ≡ false → 0 < length (live_from live 0 (page_rows held.now)) }
{
    let rows = held.rows();
    for i in 0..rows.len() {
        if is_live(live, i) {
            return false;
        }
    }
    true
}

/// A page's live rows, shared, with a row put at its place.
pub fn rewritten(
    alloc: Global,
    held: &SharedPage,
    row: SharedRow,
) -> Result<Vec<SharedRow>, AllocError>
    requires rising { IsRising (page_rows held.now) }
    requires sound { IsSound held.now }
    ensures rows { IfOk result (λ v. v.items ≡ with_row row (live_rows held.now)) }
    ensures some { IfOk result (λ v. 0 < length v.items) }
    ensures few { IfOk result (λ v. length v.items ≤ 65) }
{
    let mut rows = held.shared(alloc)?;
    let place = place_by_halves(rows.as_slice(), row.row().raw.as_str());
    put_shared(&mut rows, place, row)?;
    Ok(rows)
}

/// Keeps the rows whose bits are set.
fn keep_live(rows: &mut MarkedRows, live: u64)
    requires { length rows.old ≤ 64 }
    ensures { rows.new ≡ live_from live 0 rows.old }
{
    if live == u64::MAX {
        return;
    }
    let mut left = rows.rows().len();
    while left > 0 {
        left -= 1;
        if !is_live(live, left) {
            rows.remove(left);
        }
    }
}

/// Puts a row into a page that isn't shared, or gives the row back.
pub fn put_alone(held: &mut SharedPage, row: SharedRow) -> Result<Option<SharedRow>, AllocError>
    requires rising { IsRising (page_rows held.old) }
    requires sound { IsSound held.old }
    requires room { length (with_row row (live_rows held.old)) ≤ 64 }
    ensures told { MatchResult result (λ back. MatchOption back ((page_rows held.new ≡ with_row row (live_rows held.old)) × (live_rows held.new ≡ with_row row (live_rows held.old))) (λ r. (r ≡ row) × (held.new ≡ held.old))) (λ _. (page_rows held.new ≡ live_rows held.old) × (live_rows held.new ≡ live_rows held.old)) }
    ensures mark { IsMarked held.new.mark (page_rows held.new) }
{
    let live = held.live;
    let Some(rows) = Arc::get_mut(&mut held.page) else {
        return Ok(Some(row));
    };
    keep_live(rows, live);
    let place = rows.place(row.row().raw.as_str());
    match rows.put(place, row) {
        Ok(()) => {
            held.mark = rows.first_mark();
            held.live = u64::MAX;
            Ok(None)
        }
        Err(refused) => {
            held.mark = rows.first_mark();
            held.live = u64::MAX;
            Err(refused)
        }
    }
}

/// Puts a row at its place in a page that isn't shared, has room for it and of which no row was taken
/// out, or gives the row back. This is the way of most writes: the page is searched once for it.
pub fn put_found(
    held: &mut SharedPage,
    place: Result<usize, usize>,
    row: SharedRow,
) -> Result<Option<SharedRow>, AllocError>
    requires sound { IsSound held.old }
    requires place { IsPlace row.raw (page_rows held.old) place }
    ensures told { MatchResult result (λ back. MatchOption back ((page_rows held.new ≡ with_row row (live_rows held.old)) × (live_rows held.new ≡ with_row row (live_rows held.old)) × IsMarked held.new.mark (page_rows held.new) × (length (with_row row (live_rows held.old)) ≤ 64)) (λ r. (r ≡ row) × (held.new ≡ held.old))) (λ _. held.new ≡ held.old) }
{
    if held.live != u64::MAX || !takes(held.rows(), place) {
        return Ok(Some(row));
    }
    let mark = mark_with(held.mark, place, row.row().raw.as_str());
    let Some(rows) = Arc::get_mut(&mut held.page) else {
        return Ok(Some(row));
    };
    match rows.put(place, row) {
        Err(refused) => Err(refused),
        Ok(()) => {
            held.mark = mark;
            Ok(None)
        }
    }
}

/// Whether a page of these rows can take a row at this place.
fn takes(rows: &[SharedRow], place: Result<usize, usize>) -> bool
    requires { length rows.now ≤ 64 }
    ensures { (row : Row) → IsTrue result → IsPlace row.raw rows.now place → length (with_row row rows.now) ≤ 64 }
{
    if rows.len() < 64 {
        return true;
    }
    match place {
        Ok(_) => true,
        Err(_) => false,
    }
}

/// The mark of a page, which is this one, after a row with this raw id is put at its place.
fn mark_with(mark: Mark, place: Result<usize, usize>, raw: &str) -> Mark
    ensures { (row : Row) (rows : List Row) → row.raw ≡ raw.now → IsMarked mark rows → IsPlace row.raw rows place → IsMarked result (with_row row rows) }
{
    match place {
        Ok(at) => mark_at(at, mark, raw),
        Err(at) => mark_at(at, mark, raw),
    }
}

/// The mark of a raw id at the first index, and this one at a later index.
fn mark_at(at: usize, mark: Mark, raw: &str) -> Mark
    ensures first { at ≡ 0 → IsMarkOf result raw.now }
    ensures later { 0 < at → result ≡ mark }
{
    if at == 0 { Mark::of(raw) } else { mark }
}

/// Takes the rows from the 33rd on out of a full page, as a page of their own, where no row of it was
/// taken out and nothing shares it. The memory is taken first, from the spares of a table that has so
/// many pages.
pub fn upper_half(
    spares: &mut Vec<SparePage>,
    pages: usize,
    held: &mut SharedPage,
) -> Result<Option<SharedPage>, AllocError>
    requires { IsSound held.old }
    ensures told { MatchResult result (λ upper. MatchOption upper (held.new ≡ held.old) (λ u. IsHalved held.old held.new u)) (λ _. held.new ≡ held.old) }
{
    if held.live != u64::MAX || held.rows().len() < 64 {
        return Ok(None);
    }
    let SparePage { mut page, room } = take_spare(spares, pages)?;
    let Some(upper) = Arc::get_mut(&mut page) else {
        return Ok(None);
    };
    let Some(rows) = Arc::get_mut(&mut held.page) else {
        return Ok(None);
    };
    match rows.split_off(32, room) {
        Err(refused) => Err(refused),
        Ok(tail) => {
            let mark = tail.first_mark();
            *upper = tail;
            Ok(Some(SharedPage {
                page,
                live: u64::MAX,
                mark,
            }))
        }
    }
}

/// Whether a page's first row is above a raw id, which has this mark. Only where the marks are the
/// same the page is looked at.
pub fn starts_above(held: &SharedPage, raw: &str, key: Mark) -> bool
    requires sound { IsSound held.now }
    requires key { IsMarkOf key raw.now }
    ensures { IfSome (slice_get (page_rows held.now) 0) (λ x. result ≡ is_gt (order x.raw raw.now)) }
{
    match compare_marks(held.mark, key) {
        Ordering::Less => false,
        Ordering::Equal => {
            let rows = held.rows();
            compare_shared(&rows[0], raw).is_gt()
        }
        Ordering::Greater => true,
    }
}

/// Whether a page has live rows, and can take a row in place.
pub fn has_room(held: &SharedPage, row: &SharedRow) -> bool
    requires rising { IsRising (page_rows held.now) }
    requires sound { IsSound held.now }
    ensures some { IsTrue result → 0 < length (live_rows held.now) }
    ensures room { IsTrue result → length (with_row row.now (live_rows held.now)) ≤ 64 }
{
    if is_dead(held, held.live) {
        return false;
    }
    if held.rows().len() < 64 {
        return true;
    }
    let raw = row.row().raw.as_str();
    match held.look(raw, held.place(raw)) {
        Some(_) => true,
        None => false,
    }
}
