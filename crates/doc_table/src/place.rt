ghost use Rattle.std.specs.Prelude.{◌≡◌, ◌≤◌, length, OnOk, OnErr, IfOk, slice_get};
ghost use Rattle.doc_table.specs.RowLists.{order, IsRising, with_row, below, above, found, meets, is_after};
ghost use Rattle.std.specs.Option.{option_copied};
ghost use Rattle.doc_table.specs.Place.{IsPlace};
ghost use Rattle.std.specs.Prelude.{◌++◌, ◌+◌, ◌<◌, ◌^◌, [], ◌∷◌, take, if◌then◌else◌};

use crate::shared_row::SharedRow;
use saved_doc::Row;
use std::alloc::AllocError;
use std::cmp::Ordering;

/// The order of a row's raw id and this one.
pub fn compare(row: &Row, raw: &str) -> Ordering
    ensures { result ≡ order row.now.raw raw.now }
{
    row.raw.as_str().cmp(raw)
}

/// The order of a shared row's raw id and this one.
pub fn compare_shared(row: &SharedRow, raw: &str) -> Ordering
    ensures { result ≡ order row.now.raw raw.now }
{
    compare(row.row(), raw)
}

/// The place of a raw id, looked for row by row.
pub fn scan(rows: &[Row], raw: &str) -> Result<usize, usize>
    requires { IsRising rows.now }
    ensures { IsPlace raw.now rows.now result }
{
    for (i, row) in rows.iter().enumerate() {
        match compare(row, raw) {
            Ordering::Less => {}
            Ordering::Equal => return Ok(i),
            Ordering::Greater => return Err(i),
        }
    }
    Err(rows.len())
}

/// Puts a row at its place.
pub fn put_at(rows: &mut Vec<Row>, place: Result<usize, usize>, row: Row) -> Result<(), AllocError>
    requires { IsPlace row.raw rows.old.items place }
    ensures ok { OnOk result (rows.new.items ≡ with_row row rows.old.items) }
    ensures err { OnErr result (rows.new.items ≡ rows.old.items) }
{
    match place {
        Ok(at) => rows[at] = row,
        Err(at) => rows.insert(at, row)?,
    }
    Ok(())
}

/// Puts a row at its place among shared rows.
pub fn put_shared(
    rows: &mut Vec<SharedRow>,
    place: Result<usize, usize>,
    row: SharedRow,
) -> Result<(), AllocError>
    requires { IsPlace row.raw rows.old.items place }
    ensures ok { OnOk result (rows.new.items ≡ with_row row rows.old.items) }
    ensures err { OnErr result (rows.new.items ≡ rows.old.items) }
{
    match place {
        Ok(at) => rows[at] = row,
        Err(at) => rows.insert(at, row)?,
    }
    Ok(())
}

/// Takes out what is at a raw id's place.
pub fn take_out(rows: &mut Vec<Row>, place: Result<usize, usize>, raw: &str)
    requires { IsPlace raw.now rows.old.items place }
    ensures { rows.new.items ≡ below raw.now rows.old.items ++ above raw.now rows.old.items }
{
    let _ = raw;
    match place {
        Ok(at) => drop(rows.remove(at)),
        Err(_) => {}
    }
}

/// The row at an index.
pub fn row_at(rows: &[Row], at: usize) -> Option<&Row>
    ensures { option_copied result ≡ slice_get rows.now at }
{
    rows.get(at)
}

/// The row of a raw id, looked for row by row.
pub fn look<'a>(rows: &'a [Row], raw: &str) -> Option<&'a Row>
    requires { IsRising rows.now }
    ensures { option_copied result ≡ found raw.now rows.now }
{
    match scan(rows, raw) {
        Ok(at) => row_at(rows, at),
        Err(_) => None,
    }
}

/// Whether a number that is expected is the one that is there.
pub fn meets(expect: Option<u64>, now: Option<u64>) -> bool
    ensures { result ≡ meets expect now }
{
    match (expect, now) {
        (None, _) => true,
        (Some(_), None) => false,
        (Some(s), Some(n)) => s == n,
    }
}

/// Whether a row is above a raw id, if one is given.
pub fn is_after(row: &Row, after: Option<&str>) -> bool
    ensures { result ≡ is_after (option_copied after.entry) row.now }
{
    match after {
        None => true,
        Some(raw) => compare(row, raw).is_gt(),
    }
}

/// Pushes a copy of a row, up to a number of rows.
pub fn push_if(out: &mut Vec<Row>, row: &Row, keep: bool, n: u64) -> Result<(), AllocError>
    requires { length out.old.items ≤ n }
    ensures { OnOk result (out.new.items ≡ take n (out.old.items ++ (if keep then row.now ∷ [] else []))) }
{
    if !keep {
        return Ok(());
    }
    if out.len() as u64 >= n {
        return Ok(());
    }
    out.push(row.clone()?)?;
    Ok(())
}

/// A copy of a row with this number.
pub fn counted(row: &Row, seq: u64) -> Result<Row, AllocError>
    ensures { IfOk result (λ r. r ≡ record row.now { seq = seq }) }
{
    Ok(Row {
        raw: row.raw.clone()?,
        seq,
        doc: row.doc.clone()?,
    })
}

/// Pushes a copy of a row with the next of the numbers that count from `from`.
pub fn push_counted(out: &mut Vec<Row>, row: &Row, from: u64) -> Result<(), AllocError>
    requires { from + length out.old.items < 2 ^ 64 }
    ensures { OnOk result (out.new.items ≡ out.old.items ++ (record row.now { seq = from + length out.old.items }) ∷ []) }
{
    let seq = from + out.len() as u64;
    out.push(counted(row, seq)?)?;
    Ok(())
}
