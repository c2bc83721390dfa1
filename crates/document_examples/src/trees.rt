//! Trees and documents from their texts, and back. A text that stands for none is answered as want
//! of memory, so that each case has one way to fail.
ghost use Rattle.std.specs.Prelude.{◌≡◌, IfOk, true};
ghost use Rattle.so_js.specs.Tree.{is_sound};

use plain_data::List;
use saved_doc::{Doc, from_js, to_js};
use so_js::{Js, parse, print};
use std::alloc::{AllocError, Global};
use type_registry::Registry;

/// The tree that a text stands for.
pub(crate) fn tree(alloc: Global, text: &str) -> Result<Js, AllocError>
    ensures { IfOk result (λ js. is_sound js ≡ true) }
{
    match parse(alloc, text.as_bytes(), 127) {
        Ok(js) => Ok(js),
        Err(_) => Err(AllocError),
    }
}

/// The document that a text stands for.
pub(crate) fn document(alloc: Global, text: &str) -> Result<Doc, AllocError> {
    let js = tree(alloc, text)?;
    match from_js(alloc, &js) {
        Ok(doc) => Ok(doc),
        Err(_) => Err(AllocError),
    }
}

/// The registry that a text stands for.
pub(crate) fn registry(alloc: Global, text: &str) -> Result<Registry, AllocError> {
    let js = tree(alloc, text)?;
    match Registry::read(alloc, &js) {
        Ok(reg) => Ok(reg),
        Err(_) => Err(AllocError),
    }
}

/// The stored text of a document.
pub(crate) fn stored(alloc: Global, doc: &Doc) -> Result<List<u8>, AllocError> {
    let js = to_js(alloc, doc)?;
    print(alloc, &js)
}

/// A text at its first occurrence of a mark: what stands before it, and what stands behind it.
pub(crate) fn split<'a>(text: &'a str, mark: &str) -> (&'a str, &'a str) {
    text.split_once(mark).unwrap_or((text, ""))
}
