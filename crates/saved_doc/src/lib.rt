//! Saved documents: their JSON form both ways, and the spaces where they are visible.
#![tactic(auto)]

mod doc;
mod error;
mod parts;
mod reading;
mod shared;
mod visibility;
mod writing;

pub use doc::{Doc, Row};
pub use document_model::Ref;
pub use error::DocError;
pub use reading::{from_js, from_owned_js};
pub use shared::SharedDoc;
pub use visibility::visible;
pub use writing::to_js;
