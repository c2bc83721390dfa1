use plain_data::Text;

/// A named reference of one document to another.
#[derive(Clone, Debug, PartialEq, Eq, Drop)]
pub struct Ref {
    pub name: Text,
    /// The type of the object that is referred to.
    pub type_name: Text,
    /// The id of the object that is referred to.
    pub id: Text,
}
