//! The items of calls that write: which of them are left to judge, what each does by the row that was
//! read for it, the writes that they send, and what they answer.
#![tactic(auto)]

mod answering;
mod copying;
mod placing;
mod readying;
mod taken;

pub use answering::{bulk_answer, settled_answer};
pub use placing::{Turn, all_blind, raws_of, turns};
pub use readying::{Ready, readied, writes_of};
