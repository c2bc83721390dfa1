//! The plans of object calls: which requests a call makes, one after the other, and what it answers
//! from the replies.
#![tactic(auto)]

mod asking;
mod changing;
mod copying;
mod following;
mod going_on;
mod laws;
mod looking;
mod making;
mod plan;
mod searching;
mod stage;
mod starting;

pub use laws::plans_follow_the_definition;
pub use plan::Plan;
