use plain_data::Text;
use saved_doc::SharedDoc;

/// The result of one write.
#[derive(Clone, Copy, Debug, PartialEq, Eq)]
pub enum Item {
    /// The write was done with this number.
    Written(u64),
    /// A create found a row, which has this number.
    Exists(u64),
    /// A write that expects a number found a row with this one, or none.
    Conflict(Option<u64>),
    /// A delete found no row.
    NotFound,
}

/// One write of a bulk request.
#[derive(Clone, Debug, Drop)]
pub enum Write {
    /// Adds a row where the raw id has none.
    Create {
        raw: Text,
        doc: SharedDoc,
    },
    /// Adds or replaces a row, where it has the number that is expected, if one is.
    Put {
        raw: Text,
        doc: SharedDoc,
        expect: Option<u64>,
    },
    /// Takes a row out, where it has the number that is expected, if one is.
    Delete {
        raw: Text,
        expect: Option<u64>,
    },
}
