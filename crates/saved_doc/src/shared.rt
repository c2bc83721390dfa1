ghost use Rattle.std.specs.Prelude.{◌≡◌, IfOk};

use crate::doc::Doc;
use std::alloc::{AllocError, Global};
use std::marker::Model;
use std::sync::Arc;

/// A document that is shared, and that contracts see as the document.
#[derive(Debug, Drop)]
pub struct SharedDoc {
    doc: Arc<Doc>,
}

impl Model for SharedDoc {
    ghost use Rattle.document_model.specs.Documents.{Doc as Document};
    ghost use Rattle.so_js.specs.declared.js.Js.{Js};
    ghost use Rattle.saved_doc.specs.Trees.{doc_code};

    ghost Value = { Document Js };

    ghost coded = { doc_code };

    ghost view = { λ s. s.doc.value };
}

impl SharedDoc {
    /// The document, to be shared.
    pub fn new(alloc: Global, doc: Doc) -> Result<SharedDoc, AllocError>
        ensures { IfOk result (λ s. s ≡ doc) }
    {
        Ok(SharedDoc {
            doc: Arc::new(alloc, doc)?,
        })
    }

    /// The document. Takes no memory.
    pub fn get(&self) -> &Doc
        ensures { result.now ≡ self.now }
    {
        &self.doc
    }

    /// The document itself where nobody else shares it, and else a copy.
    pub fn into_doc(self) -> Result<Doc, AllocError>
        ensures { IfOk result (λ doc. doc ≡ self) }
    {
        Arc::unwrap_or_clone(self.doc)
    }
}

impl Clone for SharedDoc {
    ghost is_clone = { λ old new. new ≡ old };

    fn clone(&self) -> Result<SharedDoc, AllocError> {
        Ok(SharedDoc {
            doc: self.doc.clone()?,
        })
    }
}
