//! The definitions of queries: which rows one selects, in which order, and the page of them.
#![tactic(auto)]

mod parts;

pub use parts::{Sort, Target, TypeKind, TypeVer};
