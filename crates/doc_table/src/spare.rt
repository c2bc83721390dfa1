use crate::marked::MarkedRows;
use crate::shared_row::SharedRow;
use std::alloc::{AllocError, Global};
use std::sync::Arc;

/// The memory of a page to come: that of its rows, and that of their list.
#[derive(Debug, Drop)]
pub struct SparePage {
    pub page: Arc<MarkedRows>,
    pub room: Vec<SharedRow>,
}

impl SparePage {
    /// Memory for one page.
    fn new(alloc: Global) -> Result<SparePage, AllocError> {
        Ok(SparePage {
            page: Arc::new(alloc, MarkedRows::empty(alloc))?,
            room: Vec::with_capacity(alloc, 64)?,
        })
    }
}

/// Adds so many spare pages, or fewer where memory ends.
fn stock(spares: &mut Vec<SparePage>, count: usize) {
    let alloc = *spares.allocator();
    for _ in 0..count {
        let Ok(spare) = SparePage::new(alloc) else {
            return;
        };
        if spares.push(spare).is_err() {
            return;
        }
    }
}

/// Takes a spare page, of a table that has so many pages. Where there is none, memory for a quarter as
/// many is taken at once, at most for 64, so that pages lie together in memory and not among the rows,
/// and a search waits less for the tables of the processor's memory management.
pub fn take_spare(spares: &mut Vec<SparePage>, pages: usize) -> Result<SparePage, AllocError> {
    if spares.is_empty() {
        stock(spares, (pages / 4).clamp(1, 64));
    }
    match spares.pop() {
        Some(spare) => Ok(spare),
        None => SparePage::new(*spares.allocator()),
    }
}
