//! What a store opens with and who works on it, the facts of a journal's history, and what an audit
//! says: records that a scenario gives, and that the audits and worlds on top of it take.
#![tactic(auto)]

mod facts;
mod late;
mod opening;
mod verdict;

pub use facts::Fact;
pub use late::{LateFact, LateOpening, LateScript};
pub use opening::{Generation, Opening, Script, TargetSet};
pub use verdict::{Reason, Verdict};
