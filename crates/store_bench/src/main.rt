#![tactic(auto)]
//! `store_bench WORK FEW MANY TIMES`: does the work so many times on an index of few rows and, in turn
//! with it, on one of many. It prints how many answers were as they had to be, and to standard error
//! the nanoseconds of processor time that the store took on the few rows and on the many. WORK is
//! `fills` (creates that fill the index from nothing), `creates` (into the index as it is filled, until
//! it has a tenth more), `doubles` (until it has twice as many), `gets`, `pits`, `reads`, or `bulks` (as
//! many creates as FEW says into the index of many rows, one by one and then as a bulk). The rows come
//! in a random order of raw ids, each with a document of its own.
mod filling;
mod growing;
mod sides;
mod timing;
mod working;

use anyhow::{Context, Result, bail, ensure};
use growing::{creates, doubles, fills};
use sides::{Sides, Sizes};
use std::env;
use timing::Spent;
use working::{bulks, gets, pits, reads};

/// The most rows, and the most times.
const MOST: u64 = 400_000;

fn number(word: &str) -> Result<u64> {
    let number = word
        .parse::<u64>()
        .context(format_args!("reading {word:?}"))?;
    ensure!(number <= MOST, "{number} is more than {MOST}");
    Ok(number)
}

fn main(rt: HostRuntime) -> Result<()> {
    let mut words = Vec::new(rt.alloc());
    for word in env::args(&rt)? {
        words.push(word)?;
    }
    let [_, work, few, many, times] = words.as_slice() else {
        bail!("the words are WORK FEW MANY TIMES");
    };
    let sizes = Sizes {
        few: number(few.as_str())?,
        many: number(many.as_str())?,
        times: number(times.as_str())?,
    };
    let mut sides = Sides {
        few: Spent::none(),
        many: Spent::none(),
    };
    let done = match work.as_str() {
        "fills" => fills(&rt, rt.alloc(), &mut sides, sizes)?,
        "creates" => creates(&rt, rt.alloc(), &mut sides, sizes)?,
        "doubles" => doubles(&rt, rt.alloc(), &mut sides, sizes)?,
        "gets" => gets(&rt, rt.alloc(), &mut sides, sizes)?,
        "pits" => pits(&rt, rt.alloc(), &mut sides, sizes)?,
        "reads" => reads(&rt, rt.alloc(), &mut sides, sizes)?,
        "bulks" => bulks(&rt, rt.alloc(), &mut sides, sizes)?,
        word => bail!("no work {word:?}"),
    };
    println!(rt; "{work}: as they had to be {done}")?;
    let few = sides.few.nanoseconds();
    let many = sides.many.nanoseconds();
    eprintln!(rt; "{few} {many}")?;
    Ok(())
}
