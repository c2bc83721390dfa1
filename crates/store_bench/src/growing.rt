//! Creates of one row each into an index that grows by them.
use crate::filling::{Place, creates_from, filled, write_all};
use crate::sides::{LOT, Sides, Sizes, turns};
use crate::timing::Spent;
use anyhow::Result;
use doc_table::{Item, Write};
use index_store::{IndexStore, Served};
use plain_data::List;
use std::alloc::{AllocError, Global};
use std::time::CpuClock;

/// Whether a bulk of so many writes did all of them.
pub fn wrote_all(served: &Served, count: usize) -> bool {
    match served {
        Served::Items(items) => {
            items.len() == count && items.as_slice().iter().all(|item| is_written(item))
        }
        _ => false,
    }
}

fn is_written(item: &Item) -> bool {
    match item {
        Item::Written(_) => true,
        _ => false,
    }
}

/// A lot of bulks of one create each, from a place on.
fn lot_of_creates(alloc: Global, place: Place) -> Result<Vec<List<Write>>, AllocError> {
    let mut bulks = Vec::new(alloc);
    for step in 0..LOT {
        bulks.push(creates_from(alloc, place.behind(step), 1)?)?;
    }
    Ok(bulks)
}

/// Does bulks of one create each.
fn write_each(store: &mut IndexStore, bulks: Vec<List<Write>>) -> Result<u64, AllocError> {
    let mut done = 0u64;
    for writes in bulks {
        if wrote_all(&write_all(store, writes)?, 1) {
            done = done.wrapping_add(1);
        }
    }
    Ok(done)
}

/// Creates of one row each, so many in whole lots, from a place on.
pub fn create_each(
    clock: &impl CpuClock,
    alloc: Global,
    spent: &mut Spent,
    store: &mut IndexStore,
    place: Place,
    count: u64,
) -> Result<u64> {
    let mut done = 0u64;
    for lot in 0..turns(count, LOT) {
        let bulks = lot_of_creates(alloc, place.behind(lot.wrapping_mul(LOT)))?;
        spent.begin(clock)?;
        let right = write_each(store, bulks)?;
        spent.end(clock)?;
        done = done.wrapping_add(right);
    }
    Ok(done)
}

/// An index that has `first` rows, grows by creates to `last`, and then begins anew in another order,
/// since a processor learns how an order goes that comes again.
#[derive(Debug, Drop)]
struct Growing {
    store: IndexStore,
    order: u64,
    rows: u64,
    first: u64,
    last: u64,
}

impl Growing {
    /// The index with its first rows.
    fn new(alloc: Global, order: u64, first: u64, last: u64) -> Result<Growing, AllocError> {
        Ok(Growing {
            store: filled(alloc, order, first)?,
            order,
            rows: first,
            first,
            last,
        })
    }

    /// So many creates in whole lots, between which the index begins anew where it has all its rows.
    fn grow(
        &mut self,
        clock: &impl CpuClock,
        alloc: Global,
        spent: &mut Spent,
        count: u64,
    ) -> Result<u64> {
        let mut done = 0u64;
        for _ in 0..turns(count, LOT) {
            if self.rows >= self.last {
                self.order = self.order.wrapping_add(2);
                self.store = filled(alloc, self.order, self.first)?;
                self.rows = self.first;
            }
            let place = Place {
                order: self.order,
                at: self.rows,
            };
            let right = create_each(clock, alloc, spent, &mut self.store, place, LOT)?;
            done = done.wrapping_add(right);
            self.rows = self.rows.wrapping_add(LOT);
        }
        Ok(done)
    }
}

/// Creates into one index and, in turn with it, into another, each time ten lots.
fn grow_both(
    clock: &impl CpuClock,
    alloc: Global,
    sides: &mut Sides,
    times: u64,
    short: &mut Growing,
    long: &mut Growing,
) -> Result<u64> {
    let mut done = 0u64;
    for _ in 0..turns(times, 10 * LOT) {
        let right = long.grow(clock, alloc, &mut sides.many, 10 * LOT)?;
        done = done.wrapping_add(right);
        let right = short.grow(clock, alloc, &mut sides.few, 10 * LOT)?;
        done = done.wrapping_add(right);
    }
    Ok(done)
}

/// Creates that fill an index from nothing.
pub fn fills(clock: &impl CpuClock, alloc: Global, sides: &mut Sides, sizes: Sizes) -> Result<u64> {
    let mut short = Growing::new(alloc, 0, 0, sizes.few)?;
    let mut long = Growing::new(alloc, 1, 0, sizes.many)?;
    grow_both(clock, alloc, sides, sizes.times, &mut short, &mut long)
}

/// A number of rows and a tenth more.
fn and_a_tenth(rows: u64) -> u64 {
    rows.wrapping_add(rows.checked_div(10).unwrap_or(0))
}

/// Creates into an index that has all its rows, until it has a tenth more.
pub fn creates(
    clock: &impl CpuClock,
    alloc: Global,
    sides: &mut Sides,
    sizes: Sizes,
) -> Result<u64> {
    let mut short = Growing::new(alloc, 0, sizes.few, and_a_tenth(sizes.few))?;
    let mut long = Growing::new(alloc, 1, sizes.many, and_a_tenth(sizes.many))?;
    grow_both(clock, alloc, sides, sizes.times, &mut short, &mut long)
}

/// Creates into an index that has all its rows, until it has twice as many.
pub fn doubles(
    clock: &impl CpuClock,
    alloc: Global,
    sides: &mut Sides,
    sizes: Sizes,
) -> Result<u64> {
    let mut short = Growing::new(alloc, 0, sizes.few, sizes.few.wrapping_mul(2))?;
    let mut long = Growing::new(alloc, 1, sizes.many, sizes.many.wrapping_mul(2))?;
    grow_both(clock, alloc, sides, sizes.times, &mut short, &mut long)
}
