ghost use Rattle.std.specs.Prelude.{◌≡◌, ◌∷◌, [], IfOk, Some};
ghost use Rattle.transform_ops.specs.declared.op.Op.{Op as Operation};
ghost use Rattle.document_model.specs.Documents.{or_default};
ghost use Rattle.document_model.specs.Registries.{Known, known};
ghost use Rattle.version_token.specs.Token.{token_of as token_for};
ghost use Rattle.call_model.specs.Acts.{shown as shown_in, shown_spaces as spaces_shown};
ghost use Rattle.call_words.specs.Told.{shown_with_token};

use crate::answers::Shown;
use crate::attributes::Attributes;
use crate::copying::{copied_references, copied_spaces, copied_text};
use doc_query::id_of;
use plain_data::{List, Text};
use saved_doc::{Doc, Row};
use space_scope::{Kind, SpaceId};
use std::alloc::{AllocError, Global};
use type_registry::Registry;
use version_token::encode;

/// A row as an object: with its id, the token of its number, and the spaces that objects of its
/// type show.
pub fn shown(alloc: Global, reg: &Registry, row: &Row) -> Result<Shown, AllocError>
    ensures { IfOk result (λ s. s ≡ shown_with_token (shown_in reg.now row.now.raw row.now.seq row.now.doc)) }
{
    let doc = row.doc.get();
    Ok(Shown {
        type_name: Text::from_str(alloc, doc.type_name())?,
        id: Text::from_str(alloc, id_of(row.raw.as_str(), doc))?,
        attributes: attributes_of(doc)?,
        references: copied_references(&doc.references)?,
        version: token_of(alloc, row.seq)?,
        stamp: doc.stamp,
        core: doc.core,
        origin: copied_text(&doc.origin)?,
        updated_at: copied_text(&doc.updated_at)?,
        namespaces: shown_spaces(alloc, reg, doc)?,
    })
}

fn attributes_of(doc: &Doc) -> Result<Attributes, AllocError>
    ensures { IfOk result (λ a. a ≡ doc.now.attributes) }
{
    let js = doc.attributes().clone()?;
    Ok(Attributes::new(js))
}

fn token_of(alloc: Global, number: u64) -> Result<Text, AllocError>
    ensures { IfOk result (λ token. token ≡ token_for number) }
{
    let token = encode(alloc, number)?;
    Ok(Text::from_string(token))
}

fn shown_spaces(alloc: Global, reg: &Registry, doc: &Doc) -> Result<Option<List<Text>>, AllocError>
    ensures { IfOk result (λ spaces. spaces ≡ spaces_shown (known reg.now doc.now.type_name) doc.now) }
{
    match reg.kind_of(doc.type_name()) {
        Some(kind) => {
            let spaces = spaces_by_kind(alloc, kind, doc)?;
            Ok(spaces)
        }
        None => Ok(None),
    }
}

fn spaces_by_kind(alloc: Global, kind: Kind, doc: &Doc) -> Result<Option<List<Text>>, AllocError>
    ensures { (t : Known Operation) → t.kind ≡ kind → IfOk result (λ spaces. spaces ≡ spaces_shown (Some t) doc.now) }
{
    match kind {
        Kind::Single => {
            let spaces = own_space(alloc, &doc.namespace)?;
            Ok(Some(spaces))
        }
        Kind::Multiple | Kind::MultipleIsolated => copied_spaces(&doc.namespaces),
        Kind::Agnostic => Ok(None),
    }
}

fn own_space(alloc: Global, namespace: &Option<SpaceId>) -> Result<List<Text>, AllocError>
    ensures { IfOk result (λ spaces. spaces ≡ or_default namespace.now ∷ []) }
{
    let text = match namespace {
        Some(space) => Text::from_str(alloc, space.as_str())?,
        None => Text::from_str(alloc, "default")?,
    };
    let mut spaces = List::new(alloc);
    spaces.push(text)?;
    Ok(spaces)
}
