//! What the works on few rows and on many have in common.
use crate::timing::Spent;

/// How many rows the two indices have, and how often a work is done on each.
#[derive(Clone, Copy, Debug)]
pub struct Sizes {
    pub few: u64,
    pub many: u64,
    pub times: u64,
}

/// The processor time that a work took on few rows and on many.
#[derive(Clone, Copy, Debug)]
pub struct Sides {
    pub few: Spent,
    pub many: Spent,
}

/// How many requests are made ready at a time, and then timed.
pub const LOT: u64 = 100;

/// How many whole turns of so many there are.
pub fn turns(times: u64, turn: u64) -> u64 {
    times.checked_div(turn).unwrap_or(0)
}
