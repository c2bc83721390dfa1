//! An index of many rows, and what is written to it.
ghost use Rattle.std.specs.Prelude.{◌≡◌, ◌+◌, ◌≤◌, ◌^◌, length, IfOk, IsTrue, IfSome};
ghost use Rattle.base_model.specs.Keyed.{at};

use doc_table::{DocTable, Write};
use index_store::{IndexStore, Opened, Served};
use plain_data::{List, Text};
use rand_core::{Rng, SeedableRng};
use rand_pcg::Pcg64;
use saved_doc::{SharedDoc, from_owned_js};
use std::alloc::{AllocError, Global};

/// The name of the index.
pub const INDEX: &str = "rows";

/// A place of a random order of raw ids. Each order is another, and has raw ids of its own.
#[derive(Clone, Copy, Debug)]
pub struct Place {
    pub order: u64,
    pub at: u64,
}

impl Place {
    /// The place so many behind this one.
    pub fn behind(self, steps: u64) -> Place {
        Place {
            order: self.order,
            at: self.at.wrapping_add(steps),
        }
    }
}

/// The raw id at this place: of 64 random bits, so that hardly ever two are the same.
pub fn raw_at(alloc: Global, place: Place) -> Result<Text, AllocError> {
    let mut random = Pcg64::seed_from_u64(place.order);
    random.advance(u128::from(place.at));
    let number = random.next_u64();
    Ok(Text::from_string(format!(in alloc; "t:{number:016x}")?))
}

/// A small document.
fn document(alloc: Global) -> Result<SharedDoc, AllocError> {
    let text = r#"{"t":{"title":"Sales"},"type":"t"}"#;
    let Ok(js) = so_js::parse(alloc, text.as_bytes(), 4) else {
        return Err(AllocError);
    };
    match from_owned_js(alloc, js) {
        Ok(doc) => SharedDoc::new(alloc, doc),
        Err(_) => Err(AllocError),
    }
}

/// Creates of `count` rows with one document, from a place on.
pub fn creates_from(alloc: Global, place: Place, count: u64) -> Result<List<Write>, AllocError> {
    let doc = document(alloc)?;
    let mut writes = List::new(alloc);
    for step in 0..count {
        writes.push(Write::Create {
            raw: raw_at(alloc, place.behind(step))?,
            doc: doc.clone()?,
        })?;
    }
    Ok(writes)
}

/// Does the writes, where the index has room for their numbers.
pub fn write_all(store: &mut IndexStore, writes: List<Write>) -> Result<Served, AllocError> {
    let next = match store.table(INDEX) {
        Some(table) => table.next(),
        None => 0,
    };
    if next > 1 << 62 || writes.len() > 1 << 20 {
        return Err(AllocError);
    }
    store.bulk(INDEX, writes)
}

/// A store of one index with the first rows of a random order, each created by itself and with a document
/// of its own.
pub fn filled(alloc: Global, order: u64, rows: u64) -> Result<IndexStore, AllocError> {
    let mut indices = List::new(alloc);
    indices.push(Opened {
        name: Text::from_str(alloc, INDEX)?,
        table: DocTable::empty(alloc),
    })?;
    let mut store = IndexStore::open(alloc, indices)?;
    for at in 0..rows {
        let writes = creates_from(alloc, Place { order, at }, 1)?;
        write_all(&mut store, writes)?;
    }
    Ok(store)
}
