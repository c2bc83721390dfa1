ghost use Rattle.std.specs.Prelude.{◌≡◌, true, IfOk};
ghost use Rattle.document_model.specs.Names.{is_type_name};
ghost use Rattle.so_js.specs.Tree.{is_sound};
ghost use Rattle.saved_doc.specs.Trees.{is_object};

use crate::shared::SharedDoc;
use document_model::Ref;
use plain_data::{List, Text};
use so_js::Js;
use space_scope::SpaceId;
use std::alloc::AllocError;
use std::marker::Model;
use version_token::Ver;

/// A document. Contracts see the record of its members. Its type has a type name, and its
/// attributes are a sound object.
#[derive(Debug, Drop)]
pub struct Doc {
    /// The name of its type.
    pub type_name: Text,
    /// What the object says: an object, which is the member named as the type.
    pub attributes: Js,
    /// The objects that it refers to, in their stored order.
    pub references: List<Ref>,
    /// The space of a single type's document; none in the default space.
    pub namespace: Option<SpaceId>,
    /// The spaces of a document of a multiple kind.
    pub namespaces: Option<List<Text>>,
    /// The version of its type that it was last migrated to.
    pub stamp: Option<Ver>,
    /// The version of the product that wrote it.
    pub core: Option<Ver>,
    /// When it was last written, as the text that stands there; any text will do.
    pub updated_at: Option<Text>,
    /// The id that it had before it became shareable, or was imported with.
    pub origin: Option<Text>,
}

impl Model for Doc {
    ghost use Rattle.std.specs.Prelude.{◌≡◌, true};
    ghost use Rattle.document_model.specs.Documents.{Doc as Document};
    ghost use Rattle.document_model.specs.Names.{is_type_name};
    ghost use Rattle.so_js.specs.Tree.{is_sound};
    ghost use Rattle.so_js.specs.declared.js.Js.{Js};
    ghost use Rattle.saved_doc.specs.Trees.{is_object, doc_code};

    ghost Value = { Document Js };

    ghost coded = { doc_code };

    ghost view = { λ d. record {
      type_name = d.type_name;
      attributes = d.attributes;
      references = d.references;
      namespace = d.namespace;
      namespaces = d.namespaces;
      stamp = d.stamp;
      core = d.core;
      updated_at = d.updated_at;
      origin = d.origin;
    } };

    ghost invariant = { λ d. (is_type_name d.type_name ≡ true) × (is_sound d.attributes ≡ true) × (is_object d.attributes ≡ true) };
}

impl Doc {
    /// The name of the document's type. Takes no memory.
    pub fn type_name(&self) -> &str
        ensures value { result.now ≡ self.now.type_name }
        ensures name { is_type_name self.now.type_name ≡ true }
    {
        self.type_name.as_str()
    }

    /// The attributes, an object. Takes no memory.
    pub fn attributes(&self) -> &Js
        ensures value { result.now ≡ self.now.attributes }
        ensures sound { is_sound self.now.attributes ≡ true }
        ensures object { is_object self.now.attributes ≡ true }
    {
        &self.attributes
    }
}

impl Clone for Doc {
    ghost is_clone = { λ old new. new ≡ old };

    fn clone(&self) -> Result<Doc, AllocError> {
        Ok(Doc {
            type_name: self.type_name.clone()?,
            attributes: self.attributes.clone()?,
            references: copied_references(&self.references)?,
            namespace: copied_id(&self.namespace)?,
            namespaces: copied_spaces(&self.namespaces)?,
            stamp: self.stamp,
            core: self.core,
            updated_at: copied_text(&self.updated_at)?,
            origin: copied_text(&self.origin)?,
        })
    }
}

fn copied_references(references: &List<Ref>) -> Result<List<Ref>, AllocError>
    ensures { IfOk result (λ copy. copy ≡ references.now) }
{
    let copy = references.clone()?;
    Ok(copy)
}

fn copied_id(id: &Option<SpaceId>) -> Result<Option<SpaceId>, AllocError>
    ensures { IfOk result (λ copy. copy ≡ id.now) }
{
    let copy = id.clone()?;
    Ok(copy)
}

fn copied_spaces(spaces: &Option<List<Text>>) -> Result<Option<List<Text>>, AllocError>
    ensures { IfOk result (λ copy. copy ≡ spaces.now) }
{
    let copy = spaces.clone()?;
    Ok(copy)
}

fn copied_text(text: &Option<Text>) -> Result<Option<Text>, AllocError>
    ensures { IfOk result (λ copy. copy ≡ text.now) }
{
    let copy = text.clone()?;
    Ok(copy)
}

/// A document under its raw id, with the number of the write that put it there.
#[derive(Clone, Debug, Drop)]
pub struct Row {
    /// The raw id, which no other row of its table has.
    pub raw: Text,
    /// The number of that write, counted from 0 in each index.
    pub seq: u64,
    /// The document.
    pub doc: SharedDoc,
}
