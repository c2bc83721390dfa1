//! The words that an index store and its callers speak: requests and replies, which replies fit a
//! request, entries of a journal, and links over which requests go.
#![tactic(auto)]

mod copying;
mod entry;
mod event;
mod fitting;
mod laws;
mod link;
mod refusal;
mod reply;
mod request;

pub use alias_table::{Action, Pair};
pub use doc_query::{Query, Selected};
pub use doc_table::{Item, Row, Write};
pub use entry::{Entry, How};
pub use event::{Event, Stepped};
pub use fitting::fits_reply;
pub use laws::journals_go_on;
pub use link::{FailedSend, Link, LinkError};
pub use refusal::Refusal;
pub use reply::{IndexSeen, Reply};
pub use request::Request;
