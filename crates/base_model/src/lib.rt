//! What the definitions of documents and of the race share: keyed lists, and what migrating one document gives.
#![tactic(auto)]
