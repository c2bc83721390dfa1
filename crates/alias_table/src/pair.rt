use plain_data::Text;

/// An alias and the index that it names.
#[derive(Clone, Debug, PartialEq, Eq, Drop)]
pub struct Pair {
    pub alias: Text,
    pub index: Text,
}
