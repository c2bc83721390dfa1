//! Which rows a query selects, in which order, and the page of them.
#![tactic(auto)]

mod fitting;
mod ids;
mod query;
mod selecting;
mod sorting;

pub use fitting::fits;
pub use ids::id_of;
pub use query::Query;
pub use query_model::{Sort, Target, TypeKind, TypeVer};
pub use selecting::{Selected, Selection, select};
