use call_words::Refuse;
use saved_doc::SharedDoc;

/// What a change does, once its row is seen.
#[derive(Debug, Drop)]
pub enum Judged {
    /// It is refused, and sends no write.
    Denied(Refuse),
    /// It sends a write.
    Does(Deed),
}

/// What a change that isn't refused does.
#[derive(Debug, Drop)]
pub enum Deed {
    /// It adds a row with this document, where the raw id has none.
    Make(SharedDoc),
    /// It puts this document in the place of the row that was seen with this number.
    Remake { seen: u64, doc: SharedDoc },
    /// It takes the row out that was seen with this number.
    Drop { seen: u64 },
}
