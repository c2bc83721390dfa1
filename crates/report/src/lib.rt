//! The lines that are printed: the answers of object calls, and the fault of an input. A line is
//! one object, its members in order of key, and ends with a line feed.
#![tactic(auto)]

mod answers;
mod faults;
mod fields;
mod objects;
mod refusals;
mod trees;

pub use answers::{AnswerAt, answer_line};
pub use faults::fault_line;
