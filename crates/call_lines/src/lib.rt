//! Reading the call of an input line: its word, its space, and the members that a call of this
//! word has.
#![tactic(auto)]

mod calls;
mod creating;
mod error;
mod finding;
mod members;
mod parts;
mod targets;

pub use calls::read_call;
pub use error::LineError;
