#![tactic(auto)]
//! `gate_bench ACTORS TURNS ROUNDS`: has that many actors, each in a thread of its own, take that many turns each at one
//! tally, whose turns mix a word for that many rounds. It prints what was counted, and no time.
mod lists;

use anyhow::{Context, Result, bail, ensure};
use lists::repeated;
use shared_tally::tally_of;
use std::env;

/// The most actors, so that each may have a thread.
const MOST_ACTORS: u64 = 1000;

fn number(word: &str) -> Result<u64> {
    word.parse::<u64>()
        .context(format_args!("reading {word:?}"))
}

fn main(rt: HostRuntime) -> Result<()> {
    let mut words = Vec::new(rt.alloc());
    for word in env::args(&rt)? {
        words.push(word)?;
    }
    let [_, actors, turns, rounds] = words.as_slice() else {
        bail!("the words are ACTORS TURNS ROUNDS");
    };
    let actors = number(actors.as_str())?;
    let turns = number(turns.as_str())?;
    let rounds = number(rounds.as_str())?;
    ensure!(actors <= MOST_ACTORS, "at most {MOST_ACTORS} actors");
    let lists = repeated(rt.alloc(), actors, turns)?;
    let tally = tally_of(&rt, rt.alloc(), rounds, 0, lists)?;
    let entries = tally.added().len();
    let word = tally.mixed();
    println!(rt; "actors {actors}, turns {turns}, entries {entries}, word {word}")?;
    Ok(())
}
