#![tactic(auto)]
//! `transform_bench CALL TIMES ROUNDS`: makes a dashboard that is TIMES times as large as a large
//! one, and does CALL with it ROUNDS times. It prints what it counted, and no time. CALL is
//! `from_js`, `migrate` or `to_js`.
mod calls;
mod dashboard;

use anyhow::{Context, Result, bail, ensure};
use calls::{migrate_again, read_again, tree, write_again};
use dashboard::dashboard_text;
use std::env;

/// The largest TIMES.
const MOST: u64 = 64;

fn number(word: &str) -> Result<u64> {
    word.parse::<u64>()
        .context(format_args!("reading {word:?}"))
}

fn main(rt: HostRuntime) -> Result<()> {
    let mut words = Vec::new(rt.alloc());
    for word in env::args(&rt)? {
        words.push(word)?;
    }
    let [_, call, times, rounds] = words.as_slice() else {
        bail!("the words are CALL TIMES ROUNDS");
    };
    let times = number(times.as_str())?;
    let rounds = number(rounds.as_str())?;
    ensure!(times <= MOST, "TIMES is at most {MOST}");
    let text = dashboard_text(rt.alloc(), times as usize)?;
    let bytes = text.len();
    let js = tree(rt.alloc(), text.as_str())?;
    let count = match call.as_str() {
        "from_js" => read_again(rt.alloc(), &js, rounds)?,
        "migrate" => migrate_again(rt.alloc(), &js, rounds)?,
        "to_js" => write_again(rt.alloc(), &js, rounds)?,
        word => bail!("no call {word:?}"),
    };
    println!(rt; "{call}: {bytes} bytes, {rounds} rounds, counted {count}")?;
    Ok(())
}
