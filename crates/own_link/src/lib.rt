//! A store that nobody shares, as a link: a call on it is one step of one thread.
#![tactic(auto)]

mod calling;
mod link;

pub use calling::call_on;
pub use link::OwnLink;
