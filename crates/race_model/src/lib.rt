//! The definitions of the migration race: tables, the store, the instance machine, worlds, journals,
//! and the history of generations.
#![tactic(auto)]
