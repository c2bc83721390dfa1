//! What an input of `apply` says: its registry, its documents, and its calls with the numbers of
//! their lines.
#![tactic(auto)]

mod line_kind;
mod members;
mod reading;
mod scenario;

pub use line_kind::LineKind;
pub use scenario::{ApplyAsk, Scenario, ScenarioError, read_scenario};
