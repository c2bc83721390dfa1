//! The works but for those by which an index grows. Each is done side by side on an index of few rows
//! and on one of many, in turns of about a millisecond, so that whatever else the machine does meets
//! both. Each call counts the answers that are as they have to be.
use crate::filling::{INDEX, Place, creates_from, filled, raw_at, write_all};
use crate::growing::{create_each, wrote_all};
use crate::sides::{LOT, Sides, Sizes, turns};
use crate::timing::Spent;
use anyhow::Result;
use doc_query::{Query, Sort};
use index_store::{IndexStore, Served};
use plain_data::{List, Text};
use std::alloc::{AllocError, Global};
use std::time::CpuClock;

/// Creates into the index of many rows alone: as many as the other one would have, by one each and in
/// turn with that as one bulk. The times of the single ones stand on the side of few rows.
pub fn bulks(clock: &impl CpuClock, alloc: Global, sides: &mut Sides, sizes: Sizes) -> Result<u64> {
    let mut store = filled(alloc, 1, sizes.many)?;
    let mut place = Place {
        order: 1,
        at: sizes.many,
    };
    let mut done = 0u64;
    for _ in 0..sizes.times {
        let right = create_each(clock, alloc, &mut sides.few, &mut store, place, sizes.few)?;
        done = done.wrapping_add(right);
        place = place.behind(sizes.few);
        let writes = creates_from(alloc, place, sizes.few)?;
        place = place.behind(sizes.few);
        let count = writes.len();
        sides.many.begin(clock)?;
        let served = write_all(&mut store, writes)?;
        sides.many.end(clock)?;
        if wrote_all(&served, count) {
            done = done.wrapping_add(1);
        }
    }
    Ok(done)
}

/// A lot of lists of one raw id each, from a place on and, behind the last row, from the first.
fn lot_of_raws(alloc: Global, rows: u64, place: Place) -> Result<Vec<List<Text>>, AllocError> {
    let mut lists = Vec::new(alloc);
    for step in 0..LOT {
        let mut raws = List::new(alloc);
        let at = place.behind(step).at.checked_rem(rows).unwrap_or(0);
        let order = place.order;
        raws.push(raw_at(alloc, Place { order, at })?)?;
        lists.push(raws)?;
    }
    Ok(lists)
}

/// Gets the rows of each list.
fn get_each(store: &mut IndexStore, lists: Vec<List<Text>>) -> Result<u64, AllocError> {
    let mut done = 0u64;
    for raws in lists {
        if let Served::Found(found) = store.get(INDEX, &raws)? {
            if found.as_slice().iter().all(|row| row.is_some()) {
                done = done.wrapping_add(1);
            }
        }
    }
    Ok(done)
}

/// Ten lots of gets of one row each.
fn get_lots(
    clock: &impl CpuClock,
    alloc: Global,
    spent: &mut Spent,
    store: &mut IndexStore,
    rows: u64,
    place: Place,
) -> Result<u64> {
    let mut done = 0u64;
    for lot in 0..10u64 {
        let lists = lot_of_raws(alloc, rows, place.behind(lot.wrapping_mul(LOT)))?;
        spent.begin(clock)?;
        let right = get_each(store, lists)?;
        spent.end(clock)?;
        done = done.wrapping_add(right);
    }
    Ok(done)
}

/// Gets of one row each.
pub fn gets(clock: &impl CpuClock, alloc: Global, sides: &mut Sides, sizes: Sizes) -> Result<u64> {
    let mut short = filled(alloc, 0, sizes.few)?;
    let mut long = filled(alloc, 1, sizes.many)?;
    let mut done = 0u64;
    for turn in 0..turns(sizes.times, 10 * LOT) {
        let at = turn.wrapping_mul(10 * LOT);
        let place = Place { order: 1, at };
        let right = get_lots(clock, alloc, &mut sides.many, &mut long, sizes.many, place)?;
        done = done.wrapping_add(right);
        let place = Place { order: 0, at };
        let right = get_lots(clock, alloc, &mut sides.few, &mut short, sizes.few, place)?;
        done = done.wrapping_add(right);
    }
    Ok(done)
}

/// A point in time of the index, if the store can open one more.
fn open(store: &mut IndexStore) -> Result<Option<u64>, AllocError> {
    if store.opened() >= 1 << 62 {
        return Ok(None);
    }
    match store.open_pit(INDEX)? {
        Served::Pit(pit) => Ok(Some(pit)),
        _ => Ok(None),
    }
}

/// Opens and closes a lot of points in time.
fn open_and_close(clock: &impl CpuClock, spent: &mut Spent, store: &mut IndexStore) -> Result<u64> {
    let mut done = 0u64;
    spent.begin(clock)?;
    for _ in 0..LOT {
        if let Some(pit) = open(store)? {
            if let Served::Done = store.close_pit(pit)? {
                done = done.wrapping_add(1);
            }
        }
    }
    spent.end(clock)?;
    Ok(done)
}

/// Points in time, each opened and closed.
pub fn pits(clock: &impl CpuClock, alloc: Global, sides: &mut Sides, sizes: Sizes) -> Result<u64> {
    let mut short = filled(alloc, 0, sizes.few)?;
    let mut long = filled(alloc, 1, sizes.many)?;
    let mut done = 0u64;
    for _ in 0..turns(sizes.times, LOT) {
        let right = open_and_close(clock, &mut sides.many, &mut long)?;
        done = done.wrapping_add(right);
        let right = open_and_close(clock, &mut sides.few, &mut short)?;
        done = done.wrapping_add(right);
    }
    Ok(done)
}

/// The rows after the middle of all, at most 1,000.
fn from_the_middle(alloc: Global) -> Result<Query, AllocError> {
    Ok(Query {
        types: None,
        not_types: List::new(alloc),
        space: None,
        reference: None,
        origin: None,
        outdated: List::new(alloc),
        after: Some(Text::from_str(alloc, "t:8")?),
        sort: Sort::Raw,
        descending: false,
        skip: 0,
        take: Some(1_000),
        filter: None,
    })
}

/// Reads a point in time twenty times.
fn read_again(
    clock: &impl CpuClock,
    spent: &mut Spent,
    store: &mut IndexStore,
    pit: u64,
    query: &Query,
) -> Result<u64> {
    let mut done = 0u64;
    spent.begin(clock)?;
    for _ in 0..20 {
        if let Served::Rows(page) = store.read_pit(pit, query)? {
            if page.rows.len() > 0 {
                done = done.wrapping_add(1);
            }
        }
    }
    spent.end(clock)?;
    Ok(done)
}

/// Reads of 1,000 rows from the middle of a point in time.
pub fn reads(clock: &impl CpuClock, alloc: Global, sides: &mut Sides, sizes: Sizes) -> Result<u64> {
    let mut short = filled(alloc, 0, sizes.few)?;
    let mut long = filled(alloc, 1, sizes.many)?;
    let Some(short_pit) = open(&mut short)? else {
        return Ok(0);
    };
    let Some(long_pit) = open(&mut long)? else {
        return Ok(0);
    };
    let query = from_the_middle(alloc)?;
    let mut done = 0u64;
    for _ in 0..turns(sizes.times, 20) {
        let right = read_again(clock, &mut sides.many, &mut long, long_pit, &query)?;
        done = done.wrapping_add(right);
        let right = read_again(clock, &mut sides.few, &mut short, short_pit, &query)?;
        done = done.wrapping_add(right);
    }
    Ok(done)
}
