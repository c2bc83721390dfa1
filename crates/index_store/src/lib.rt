//! Named indices with their tables, and points in time: one method for each request on indices.
#![tactic(auto)]

mod held;
mod kept;
mod opened;
mod reading;
mod served;
mod store;
mod writing;

pub use held::Shown;
pub use opened::Opened;
pub use served::Served;
pub use store::IndexStore;
