//! A store of indices with aliases that answers requests, and one that keeps a journal of them.
#![tactic(auto)]

mod aliasing;
mod answers;
mod copies;
mod engine;
mod error;
mod naming;
mod opening;
mod reading;
mod sending;
mod serving;
mod simple;
mod writing;

pub use alias_table::Pair;
pub use engine::Engine;
pub use error::StoreError;
pub use index_store::Opened;
pub use sending::StoreCore;
