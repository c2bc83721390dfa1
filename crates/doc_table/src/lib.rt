//! Tables of saved objects: rows in rising order of raw id, and the number of the next write.
#![tactic(auto)]

mod copies;
mod counting;
mod list_table;
mod mark;
mod marked;
mod page;
mod pages;
mod place;
mod reader;
mod shared_row;
mod spare;
mod table;
mod writes;

pub use list_table::ListTable;
pub use reader::Rows;
pub use saved_doc::Row;
pub use table::DocTable;
pub use writes::{Item, Write};
