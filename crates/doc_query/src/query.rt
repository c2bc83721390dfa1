use kql_filter::Filter;
use plain_data::{List, Text};
use query_model::{Sort, Target, TypeKind, TypeVer};
use space_scope::Space;

/// What is asked of rows, in which order, and which page of them. A member that is missing asks
/// nothing.
#[derive(Clone, Debug, PartialEq, Eq, Drop)]
pub struct Query {
    /// The types, each with its kind; of no entry, no row is selected.
    pub types: Option<List<TypeKind>>,
    /// Types that are left out.
    pub not_types: List<Text>,
    /// Where the rows are visible, by the kinds of `types`; without `types` it asks nothing.
    pub space: Option<Space>,
    /// An object that is referred to.
    pub reference: Option<Target>,
    /// The id, or the id before the object became shareable or was imported.
    pub origin: Option<Text>,
    /// Types with the version below which a stamp is; where it is empty it asks nothing.
    pub outdated: List<TypeVer>,
    /// A raw id that the rows come after.
    pub after: Option<Text>,
    pub sort: Sort,
    /// Turns the order of `sort`; rows with level times stay in rising order of raw id.
    pub descending: bool,
    /// How many of the rows are passed over.
    pub skip: u64,
    /// The most rows that are given.
    pub take: Option<u64>,
    pub filter: Option<Filter>,
}
