use thiserror::Error;

/// Why a request was not done.
#[derive(Clone, Copy, Debug, PartialEq, Eq, Error)]
pub enum StoreError {
    /// Memory ran out.
    #[error("out of memory")]
    Memory,
    /// The journal holds as many entries as it may, which are told.
    #[error("the journal is full")]
    JournalFull(u64),
}
