use plain_data::{List, Text};
use saved_doc::SharedDoc;
use so_js::Js;

/// What migrating one document gives.
#[derive(Debug, Drop)]
pub enum Migrated {
    /// Its outputs, the document itself first.
    Outputs(List<Output>),
    /// Its stamp is above the latest version of its type, or there is no latest version.
    TooNew,
    /// It doesn't fit its raw id.
    Corrupt,
    /// Its type isn't known.
    Unknown,
    /// Its type was removed.
    Removed,
}

/// A document under its raw id.
#[derive(Debug, Drop)]
pub struct Output {
    /// The raw id.
    pub raw: Text,
    /// The document.
    pub doc: SharedDoc,
}

/// What lifting attributes gives.
#[derive(Debug, Drop)]
pub enum Lifted {
    /// The attributes of the latest version.
    Attributes(Js),
    /// The stamp is above the latest version of the type, or there is no latest version.
    TooNew,
}
