//! One change of one object: what it does with the row that was read, the write that it sends, and
//! what it answers.
#![tactic(auto)]

mod acts;
mod deeds;
mod documents;
mod judging;
mod lifting;
mod merging;
mod sharing;
mod telling;

pub use acts::Act;
pub use deeds::{Deed, Judged};
pub use judging::judge;
pub use merging::merged;
pub use telling::{told, write_of};
