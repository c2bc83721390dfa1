//! Migrating one document, and lifting attributes that are given with an older stamp.
#![tactic(auto)]

mod ids;
mod lifting;
mod migrating;
mod outcome;
mod sharing;

pub use lifting::lift;
pub use migrating::migrate;
pub use outcome::{Lifted, Migrated, Output};
