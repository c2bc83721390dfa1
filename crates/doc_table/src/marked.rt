ghost use Rattle.std.specs.Prelude.{◌≡◌, ◌<◌, ◌≤◌, [], length, take, drop, OnOk, OnErr, IfOk, IfSome};
ghost use Rattle.std.specs.List.{insert, remove};
ghost use Rattle.doc_table.specs.RowLists.{Each, IsRising, with_row};
ghost use Rattle.doc_table.specs.Marks.{IsMarked, Begins, IsWordOf, AreMarks, ends_below};
ghost use Rattle.doc_table.specs.Place.{IsPlace};

use crate::mark::{Mark, word_at};
use crate::place::compare_shared;
use crate::shared_row::SharedRow;
use arrayvec::ArrayVec;
use std::alloc::{AllocError, Global};
use std::cmp::Ordering;
use std::marker::Model;

/// Rows of one page with the first bytes that all their raw ids have, and of each the next eight as a
/// number, so that a search reads few of the rows. Contracts see the rows.
#[derive(Debug, Drop)]
pub struct MarkedRows {
    rows: Vec<SharedRow>,
    prefix: ArrayVec<u8, 32>,
    marks: ArrayVec<u64, 64>,
}

impl Model for MarkedRows {
    ghost use Rattle.std.specs.Prelude.{List, ◌≤◌, length};
    ghost use Rattle.std.specs.Coded.{coded_list};
    ghost use Rattle.saved_doc.specs.contracts.doc.Row as row;
    ghost use Rattle.saved_doc.specs.declared.doc.Row.{Row as OneRow};
    ghost use Rattle.doc_table.specs.Marks.{AreMarks};

    ghost Value = { List OneRow };

    ghost coded = { coded_list row.the_row.coded };

    ghost view = { λ r. r.rows.items };

    ghost invariant = { λ r. (length r.rows.items ≤ 64) × AreMarks r.prefix.items r.marks.items r.rows.items };
}

impl MarkedRows {
    /// No rows. Takes no memory.
    pub fn empty(alloc: Global) -> MarkedRows
        ensures { result ≡ [] }
    {
        MarkedRows {
            rows: Vec::new(alloc),
            prefix: ArrayVec::new(),
            marks: ArrayVec::new(),
        }
    }

    /// These rows. Takes no memory.
    pub fn of(rows: Vec<SharedRow>) -> MarkedRows
        requires { length rows.items ≤ 64 }
        ensures { result ≡ rows.items }
    {
        let prefix = common_prefix(rows.as_slice());
        let marks = marks_of(rows.as_slice(), prefix.as_slice());
        MarkedRows {
            rows,
            prefix,
            marks,
        }
    }

    /// The rows. Takes no memory.
    pub fn rows(&self) -> &[SharedRow]
        ensures value { result.now ≡ self.now }
        ensures few { length self.now ≤ 64 }
    {
        self.rows.as_slice()
    }

    /// The mark of the first row's raw id, or one of zeros where there is no row.
    pub fn first_mark(&self) -> Mark
        ensures { IsMarked result self.now }
    {
        first_mark(self.rows.as_slice())
    }

    /// The place of a raw id.
    pub fn place(&self, raw: &str) -> Result<usize, usize>
        requires { IsRising self.now }
        ensures { IsPlace raw.now self.now result }
    {
        place(
            self.rows.as_slice(),
            self.prefix.as_slice(),
            self.marks.as_slice(),
            raw,
        )
    }

    /// Puts a row at its place.
    pub fn put(&mut self, place: Result<usize, usize>, row: SharedRow) -> Result<(), AllocError>
        requires place { IsPlace row.raw self.old place }
        requires room { length (with_row row self.old) ≤ 64 }
        ensures ok { OnOk result (self.new ≡ with_row row self.old) }
        ensures err { OnErr result (self.new ≡ self.old) }
    {
        put_all(
            &mut self.rows,
            &mut self.prefix,
            &mut self.marks,
            place,
            row,
        )
    }

    /// Takes a row out. Takes no memory.
    pub fn remove(&mut self, at: usize)
        requires { at < length self.old }
        ensures { self.new ≡ remove self.old at }
    {
        remove_both(&mut self.rows, self.prefix.as_slice(), &mut self.marks, at);
    }

    /// Takes the rows from an index on out, to stand in this room.
    pub fn split_off(&mut self, at: usize, room: Vec<SharedRow>) -> Result<MarkedRows, AllocError>
        requires { at ≤ length self.old }
        ensures lower { OnOk result (self.new ≡ take at self.old) }
        ensures upper { IfOk result (λ upper. upper ≡ drop at self.old) }
        ensures err { OnErr result (self.new ≡ self.old) }
    {
        split_all(&mut self.rows, &mut self.prefix, &mut self.marks, at, room)
    }
}

/// The mark of the first row's raw id, or one of zeros where there is no row.
fn first_mark(rows: &[SharedRow]) -> Mark
    ensures { IsMarked result rows.now }
{
    if rows.is_empty() {
        return Mark {
            first: 0,
            second: 0,
        };
    }
    Mark::of(rows[0].row().raw.as_str())
}

/// How many of the first bytes of two texts are the same, up to a number.
fn common_len(bytes: &[u8], other: &[u8], most: usize) -> usize
    requires { most ≤ length bytes.now }
    ensures few { result ≤ most }
    ensures same { take result bytes.now ≡ take result other.now }
{
    for i in 0..most {
        if i >= other.len() {
            return i;
        }
        if bytes[i] != other[i] {
            return i;
        }
    }
    most
}

/// How many of a text's first bytes these rows' raw ids have too, up to a number.
fn common_with(bytes: &[u8], rows: &[SharedRow], most: usize) -> usize
    requires { most ≤ length bytes.now }
    ensures few { result ≤ most }
    ensures same { Each (λ x. take result bytes.now ≡ take result x.raw) rows.now }
{
    let mut len = most;
    for i in 0..rows.len() {
        len = common_len(bytes, rows[i].row().raw.as_bytes(), len);
    }
    len
}

/// These bytes.
fn bytes_of(bytes: &[u8]) -> ArrayVec<u8, 32>
    requires { length bytes.now ≤ 32 }
    ensures { result.items ≡ bytes.now }
{
    let mut held = ArrayVec::new();
    for byte in bytes {
        held.push(*byte);
    }
    held
}

/// First bytes that all raw ids of these rows have.
fn common_prefix(rows: &[SharedRow]) -> ArrayVec<u8, 32>
    ensures { Each (λ x. Begins result.items x.raw) rows.now }
{
    if rows.is_empty() {
        return ArrayVec::new();
    }
    let first = rows[0].row().raw.as_bytes();
    let len = common_with(first, rows, first.len().min(32));
    bytes_of(&first[..len])
}

/// The mark of a raw id, which begins with the prefix.
#[inline]
fn mark_after(prefix: &[u8], raw: &str) -> u64
    requires { Begins prefix.now raw.now }
    ensures { IsWordOf prefix.now result raw.now }
{
    word_at(raw.as_bytes(), prefix.len())
}

/// The marks of these rows' raw ids, which begin with a prefix.
fn marks_of(rows: &[SharedRow], prefix: &[u8]) -> ArrayVec<u64, 64>
    requires few { length rows.now ≤ 64 }
    requires prefix { Each (λ x. Begins prefix.now x.raw) rows.now }
    ensures { AreMarks prefix.now result.items rows.now }
{
    let mut marks = ArrayVec::new();
    for i in 0..rows.len() {
        marks.push(mark_after(prefix, rows[i].row().raw.as_str()));
    }
    marks
}

/// The mark of a raw id, if it begins with the prefix.
#[inline]
fn key_of(prefix: &[u8], raw: &str) -> Option<u64>
    ensures { IfSome result (λ key. IsWordOf prefix.now key raw.now) }
{
    if raw.as_bytes().starts_with(prefix) {
        Some(mark_after(prefix, raw))
    } else {
        None
    }
}

/// How many marks are below a key. All are counted, since a loop that nothing leaves early is fast.
#[inline]
fn count_below(marks: &[u64], key: u64) -> usize
    ensures { result ≤ length marks.now }
{
    let mut count = 0;
    for mark in marks {
        if *mark < key {
            count += 1;
        }
    }
    count
}

/// Whether the mark before an index, if there is one, is below a key.
#[inline]
fn ends_below(marks: &[u64], at: usize, key: u64) -> bool
    requires { at ≤ length marks.now }
    ensures { result ≡ ends_below marks.now at key }
{
    if at == 0 {
        return true;
    }
    marks[at - 1] < key
}

/// The place of a raw id with this mark, where the marks and a look at one row tell it.
#[inline]
fn place_by_marks(
    rows: &[SharedRow],
    prefix: &[u8],
    marks: &[u64],
    raw: &str,
    key: u64,
) -> Option<Result<usize, usize>>
    requires rising { IsRising rows.now }
    requires marks { AreMarks prefix.now marks.now rows.now }
    requires key { IsWordOf prefix.now key raw.now }
    ensures { IfSome result (IsPlace raw.now rows.now) }
{
    let _ = prefix;
    let at = count_below(marks, key);
    if !ends_below(marks, at, key) {
        return None;
    }
    if at == marks.len() {
        return Some(Err(at));
    }
    if marks[at] > key {
        return Some(Err(at));
    }
    if marks[at] < key {
        return None;
    }
    match compare_shared(&rows[at], raw) {
        Ordering::Less => None,
        Ordering::Equal => Some(Ok(at)),
        Ordering::Greater => Some(Err(at)),
    }
}

/// The place of a raw id, by halves, where the rows themselves are read.
pub fn place_by_halves(rows: &[SharedRow], raw: &str) -> Result<usize, usize>
    requires { IsRising rows.now }
    ensures { IsPlace raw.now rows.now result }
{
    let mut low = 0;
    let mut high = rows.len();
    while low < high {
        let mid = low + (high - low) / 2;
        match compare_shared(&rows[mid], raw) {
            Ordering::Less => low = mid + 1,
            Ordering::Equal => return Ok(mid),
            Ordering::Greater => high = mid,
        }
    }
    Err(low)
}

/// The place of a raw id, by its mark if that tells it.
fn place(rows: &[SharedRow], prefix: &[u8], marks: &[u64], raw: &str) -> Result<usize, usize>
    requires rising { IsRising rows.now }
    requires marks { AreMarks prefix.now marks.now rows.now }
    ensures { IsPlace raw.now rows.now result }
{
    if let Some(key) = key_of(prefix, raw) {
        if let Some(place) = place_by_marks(rows, prefix, marks, raw, key) {
            return place;
        }
    }
    place_by_halves(rows, raw)
}

/// Makes the prefix and the marks anew.
fn mark_anew(rows: &[SharedRow], prefix: &mut ArrayVec<u8, 32>, marks: &mut ArrayVec<u64, 64>)
    requires { length rows.now ≤ 64 }
    ensures { AreMarks prefix.new.items marks.new.items rows.now }
{
    *prefix = common_prefix(rows);
    *marks = marks_of(rows, prefix.as_slice());
}

/// Whether the first and the last mark are the same in their upper halves, so that a longer prefix
/// may tell the raw ids apart.
fn are_near(marks: &[u64]) -> bool {
    if marks.is_empty() {
        return true;
    }
    let last = marks[marks.len() - 1];
    marks[0] / 0x1_0000_0000 == last / 0x1_0000_0000
}

/// Makes the prefix and the marks anew where the marks tell little.
fn sharpen(rows: &[SharedRow], prefix: &mut ArrayVec<u8, 32>, marks: &mut ArrayVec<u64, 64>)
    requires few { length rows.now ≤ 64 }
    requires marks { AreMarks prefix.old.items marks.old.items rows.now }
    ensures { AreMarks prefix.new.items marks.new.items rows.now }
{
    if are_near(marks.as_slice()) {
        mark_anew(rows, prefix, marks);
    }
}

/// The key of a raw id that comes to these rows, if it begins with the prefix. The first row of all
/// has none, so that the prefix becomes its own.
fn key_among(prefix: &[u8], marks: &[u64], raw: &str) -> Option<u64>
    ensures { IfSome result (λ key. IsWordOf prefix.now key raw.now) }
{
    if marks.is_empty() {
        return None;
    }
    key_of(prefix, raw)
}

/// Puts a row, whose raw id is new, and its mark at an index. All memory is taken first.
fn put_new(
    rows: &mut Vec<SharedRow>,
    prefix: &mut ArrayVec<u8, 32>,
    marks: &mut ArrayVec<u64, 64>,
    at: usize,
    row: SharedRow,
) -> Result<(), AllocError>
    requires within { at ≤ length rows.old.items }
    requires room { length rows.old.items < 64 }
    requires marks { AreMarks prefix.old.items marks.old.items rows.old.items }
    ensures ok { OnOk result (rows.new.items ≡ insert rows.old.items at row) }
    ensures err { OnErr result (rows.new.items ≡ rows.old.items) }
    ensures marks { AreMarks prefix.new.items marks.new.items rows.new.items }
{
    let key = key_among(prefix.as_slice(), marks.as_slice(), row.row().raw.as_str());
    rows.insert(at, row)?;
    match key {
        Some(key) => marks.insert(at, key),
        None => mark_anew(rows.as_slice(), prefix, marks),
    }
    Ok(())
}

/// Puts a row at its place. Its mark is there already where its raw id is.
fn put_all(
    rows: &mut Vec<SharedRow>,
    prefix: &mut ArrayVec<u8, 32>,
    marks: &mut ArrayVec<u64, 64>,
    place: Result<usize, usize>,
    row: SharedRow,
) -> Result<(), AllocError>
    requires place { IsPlace row.raw rows.old.items place }
    requires room { length (with_row row rows.old.items) ≤ 64 }
    requires marks { AreMarks prefix.old.items marks.old.items rows.old.items }
    ensures ok { OnOk result (rows.new.items ≡ with_row row rows.old.items) }
    ensures err { OnErr result (rows.new.items ≡ rows.old.items) }
    ensures marks { AreMarks prefix.new.items marks.new.items rows.new.items }
{
    match place {
        Ok(at) => {
            rows[at] = row;
            Ok(())
        }
        Err(at) => put_new(rows, prefix, marks, at, row),
    }
}

/// Takes a row and its mark out.
fn remove_both(rows: &mut Vec<SharedRow>, prefix: &[u8], marks: &mut ArrayVec<u64, 64>, at: usize)
    requires within { at < length rows.old.items }
    requires marks { AreMarks prefix.now marks.old.items rows.old.items }
    ensures rows { rows.new.items ≡ remove rows.old.items at }
    ensures marks { AreMarks prefix.now marks.new.items rows.new.items }
{
    let _ = prefix;
    drop(rows.remove(at));
    let _ = marks.remove(at);
}

/// The marks from an index on.
fn marks_from(marks: &[u64], at: usize) -> ArrayVec<u64, 64>
    requires within { at ≤ length marks.now }
    requires few { length marks.now ≤ 64 }
    ensures { result.items ≡ drop at marks.now }
{
    let mut upper = ArrayVec::new();
    for mark in &marks[at..] {
        upper.push(*mark);
    }
    upper
}

/// These rows, in this room where it takes them.
fn moved_into(mut room: Vec<SharedRow>, mut rows: Vec<SharedRow>) -> Vec<SharedRow>
    ensures { result.items ≡ rows.items }
{
    room.clear();
    match room.append(&mut rows) {
        Ok(()) => room,
        Err(_) => rows,
    }
}

/// Takes the rows from an index on out, to stand in this room. All memory is taken first.
fn split_all(
    rows: &mut Vec<SharedRow>,
    prefix: &mut ArrayVec<u8, 32>,
    marks: &mut ArrayVec<u64, 64>,
    at: usize,
    room: Vec<SharedRow>,
) -> Result<MarkedRows, AllocError>
    requires within { at ≤ length rows.old.items }
    requires few { length rows.old.items ≤ 64 }
    requires marks { AreMarks prefix.old.items marks.old.items rows.old.items }
    ensures lower { OnOk result (rows.new.items ≡ take at rows.old.items) }
    ensures upper { IfOk result (λ upper. upper ≡ drop at rows.old.items) }
    ensures err { OnErr result (rows.new.items ≡ rows.old.items) }
    ensures marks { AreMarks prefix.new.items marks.new.items rows.new.items }
{
    let upper_rows = moved_into(room, rows.split_off(at)?);
    let mut upper_prefix = bytes_of(prefix.as_slice());
    let mut upper_marks = marks_from(marks.as_slice(), at);
    marks.truncate(at);
    sharpen(rows.as_slice(), prefix, marks);
    sharpen(upper_rows.as_slice(), &mut upper_prefix, &mut upper_marks);
    Ok(MarkedRows {
        rows: upper_rows,
        prefix: upper_prefix,
        marks: upper_marks,
    })
}
