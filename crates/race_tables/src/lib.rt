//! Lemmas on keyed lists, tables, outputs and batches, and on what a request does to a store.
#![tactic(auto)]
