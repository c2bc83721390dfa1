//! Worked examples of object calls on a store that others work on too, as tests: the refusals that
//! only another actor's work brings.
//!
//! They stand here since a crate with tests is proved twice.
#![tactic(auto)]

#[cfg(test)]
mod refused_calls;
#[cfg(test)]
mod stores;
#[cfg(test)]
mod two_clients;
