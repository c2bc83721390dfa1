//! The ids of objects that become shareable, and the documents that lead from their old ids.
#![tactic(auto)]

mod alias;
mod ids;

pub use alias::{alias_doc, alias_raw};
pub use ids::new_id;
