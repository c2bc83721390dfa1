//! Plain data that records hold: a text that contracts see as its bytes, and a list that they see as its items.
#![tactic(auto)]

mod list;
#[cfg(test)]
mod tests;
mod text;

pub use list::List;
pub use text::Text;
