//! The names that objects and indices have in the store: raw ids of objects, and the names of a
//! version's indices and aliases.
#![tactic(auto)]

mod error;
mod index_names;
mod laws;
mod object_ids;
#[cfg(test)]
mod tests;

pub use document_model::is_type_name as is_type;
pub use error::RawError;
pub use index_names::{target_of, temp_of, version_alias_of, version_in};
pub use laws::{index_names_are_apart, names_are_plain, raw_ids_are_apart};
pub use object_ids::raw_of;
