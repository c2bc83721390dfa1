//! The command `apply`, from the bytes of its input to the bytes of its output: the calls of an input
//! one after another on one store, and the lines of their answers.
#![tactic(auto)]

mod opening;
mod plain_call;
mod running;
mod status;

pub use plain_call::plain;
pub use scenario::ScenarioError;
pub use status::Status;
