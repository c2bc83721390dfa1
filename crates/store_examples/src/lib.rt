//! Worked examples of the crates of tables, queries, alias requests and the store, as tests.
//!
//! They stand here since a crate with tests is proved twice.
#![tactic(auto)]

#[cfg(test)]
mod alias_requests;
#[cfg(test)]
mod queries;
#[cfg(test)]
mod requests;
#[cfg(test)]
mod tables;
