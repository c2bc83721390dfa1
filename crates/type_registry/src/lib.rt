//! Registries: the types that a version of the product knows, read from JSON.
#![tactic(auto)]

mod error;
mod members;
mod migrations;
mod reading;
mod registry;
mod texts;
mod types;

pub use error::RegError;
pub use registry::Registry;
