use plain_data::Text;
use space_scope::Kind;
use version_token::Ver;

/// An object, by its type and its id.
#[derive(Clone, Debug, PartialEq, Eq, Drop)]
pub struct Target {
    pub type_name: Text,
    pub id: Text,
}

/// A type with its kind, by which a query judges visibility.
#[derive(Clone, Debug, PartialEq, Eq, Drop)]
pub struct TypeKind {
    pub name: Text,
    pub kind: Kind,
}

/// A type with its latest version, below which a document is outdated.
#[derive(Clone, Debug, PartialEq, Eq, Drop)]
pub struct TypeVer {
    pub name: Text,
    pub latest: Ver,
}

/// What rows are sorted by.
#[derive(Clone, Copy, Debug, PartialEq, Eq)]
pub enum Sort {
    /// The raw id.
    Raw,
    /// The time of the last change; a missing one sorts as the empty text.
    UpdatedAt,
}
