ghost use Rattle.std.specs.Prelude.{◌≡◌, IfOk};

use saved_doc::Row;
use std::alloc::{AllocError, Global};
use std::marker::Model;
use std::sync::Arc;

/// A row that pages share. Contracts see the row.
#[derive(Debug, Drop)]
pub struct SharedRow {
    row: Arc<Row>,
}

impl Model for SharedRow {
    ghost use Rattle.saved_doc.specs.contracts.doc.Row as contract;
    ghost use Rattle.saved_doc.specs.declared.doc.Row.{Row as OneRow};

    ghost Value = { OneRow };

    ghost coded = { contract.the_row.coded };

    ghost view = { λ r. r.row.value };
}

impl SharedRow {
    /// The row, to be shared.
    pub fn new(alloc: Global, row: Row) -> Result<SharedRow, AllocError>
        ensures { IfOk result (λ r. r ≡ row) }
    {
        Ok(SharedRow {
            row: Arc::new(alloc, row)?,
        })
    }

    /// The row. Takes no memory.
    #[inline]
    pub fn row(&self) -> &Row
        ensures { result.now ≡ self.now }
    {
        &self.row
    }

    /// The same row once more.
    pub fn share(&self) -> Result<SharedRow, AllocError>
        ensures { IfOk result (λ r. r ≡ self.now) }
    {
        Ok(SharedRow {
            row: self.row.clone()?,
        })
    }
}
