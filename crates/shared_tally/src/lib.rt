#![tactic(auto)]
//! A tally to which many actors add numbers, each in a thread of its own and in turns of one gate.
mod actors;
mod tally;
#[cfg(test)]
mod tests;

pub use actors::tally_of;
pub use tally::Tally;
