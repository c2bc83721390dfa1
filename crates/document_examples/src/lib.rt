//! Worked examples of the crates of documents, and values from outside: tests, and nothing else.
#![tactic(auto)]

#[cfg(test)]
mod filters;
#[cfg(test)]
mod migrations;
#[cfg(test)]
mod operations;
#[cfg(test)]
mod registries;
#[cfg(test)]
mod shared_objects;
#[cfg(test)]
mod stored_documents;
#[cfg(test)]
mod trees;
