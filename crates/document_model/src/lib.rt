//! The definitions of documents: type names, raw ids, visibility, registries, and migrating one document.
#![tactic(auto)]

mod names;
mod reference;
mod versions;

pub use names::{is_document_member, is_type_name};
pub use reference::Ref;
pub use versions::{is_below, is_missing_or_below};
