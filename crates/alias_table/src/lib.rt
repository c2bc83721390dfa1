//! What an alias request does to the aliases and to the names of indices: all of it, or nothing.
#![tactic(auto)]

mod action;
mod error;
mod lists;
mod pair;
mod planning;

pub use action::Action;
pub use error::PlanError;
pub use pair::Pair;
pub use planning::{Planned, plan};
