use plain_data::Text;

/// One action of an alias request.
#[derive(Clone, Debug, PartialEq, Eq, Drop)]
pub enum Action {
    /// The alias, which must name the index, goes.
    RemoveMustExist { alias: Text, index: Text },
    /// The alias names the index.
    Add { alias: Text, index: Text },
    /// The index goes, and with it the aliases that name it.
    RemoveIndex(Text),
}
