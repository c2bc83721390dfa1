//! Object calls over a link: exactly the requests of a call's plan, one after the other, and its answer.
#![tactic(auto)]

mod performing;
mod sending;

pub use performing::perform;
