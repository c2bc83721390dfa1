use doc_table::DocTable;
use plain_data::Text;

/// An index that a store begins with: its name and its table.
#[derive(Debug, Drop)]
pub struct Opened {
    pub name: Text,
    pub table: DocTable,
}
