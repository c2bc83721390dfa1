//! The definitions of object calls: what a call means on one table and between two moments, its plan of
//! requests, and clients.
#![tactic(auto)]

mod refuse;

pub use refuse::{MatchKind, Refuse};
