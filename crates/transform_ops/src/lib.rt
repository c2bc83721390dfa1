//! The operations of a migration: their JSON form, and what each does with the attributes of a
//! document.
#![tactic(auto)]

mod attributes;
mod effects;
mod error;
mod op;
mod reading;

pub use effects::apply;
pub use error::OpError;
pub use op::{Op, Replacement};
pub use reading::read_op;
