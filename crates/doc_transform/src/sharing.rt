ghost use Rattle.std.specs.Prelude.{◌≡◌, ◌∷◌, [], IfOk, Some, None, true};
ghost use Rattle.document_model.specs.Documents.{joined, default_space, id_of as id_of_row};
ghost use Rattle.document_model.specs.Migrations.{shared_over, shared_doc, alias_raw as raw_of_alias};
ghost use Rattle.base_model.specs.Keyed.{Text};
ghost use Rattle.share_ids.specs.Ids.{alias_doc as doc_of_alias, new_id as id_of_object};
ghost use Rattle.version_token.specs.declared.Ver.{Ver};
ghost use Rattle.doc_transform.specs.Transforming.{effects, pair_of, pairs_of, started, all_of, changed_over};

use crate::ids::id_of;
use crate::outcome::Output;
use plain_data::{List, Text};
use saved_doc::{Doc, SharedDoc};
use share_ids::{alias_doc, alias_raw, new_id};
use std::alloc::{AllocError, Global};
use version_token::Ver;

/// The outputs of a document whose type became shareable. In a space of its own it gets a new id,
/// and an alias document leads to it from the old one; in the default space its id stays.
pub(crate) fn share(
    alloc: Global,
    version: Ver,
    raw: &str,
    doc: Doc,
) -> Result<List<Output>, AllocError>
    ensures { IfOk result (λ all. pairs_of all ≡ changed_over true version raw.now doc) }
{
    match space_of(alloc, &doc)? {
        Some(space) => share_in(alloc, version, space, raw, doc),
        None => {
            let all = share_in_default(alloc, raw, doc)?;
            Ok(all)
        }
    }
}

fn space_of(alloc: Global, doc: &Doc) -> Result<Option<Text>, AllocError>
    ensures { IfOk result (λ space. space ≡ doc.now.namespace) }
{
    match &doc.namespace {
        Some(space) => {
            let text = Text::from_str(alloc, space.as_str())?;
            Ok(Some(text))
        }
        None => Ok(None),
    }
}

fn share_in(
    alloc: Global,
    version: Ver,
    space: Text,
    raw: &str,
    doc: Doc,
) -> Result<List<Output>, AllocError>
    ensures { IfOk result (λ all. pairs_of all ≡ all_of (shared_over effects version (Some space) (started raw.now doc))) }
{
    let old = old_id(alloc, raw, &doc)?;
    let new = id_in(alloc, &space, &doc, &old)?;
    let alias = alias_of(alloc, version, &space, &doc, &old, &new)?;
    let raw = raw_of(alloc, &doc, &new)?;
    let shared = lying_in(alloc, doc, space, Some(old))?;
    let first = output(alloc, raw, shared)?;
    let all = both(alloc, first, alias)?;
    Ok(all)
}

fn share_in_default(alloc: Global, raw: &str, doc: Doc) -> Result<List<Output>, AllocError>
    ensures { IfOk result (λ all. pairs_of all ≡ (raw.now, shared_doc doc default_space doc.origin) ∷ []) }
{
    let space = Text::from_str(alloc, "default")?;
    let raw = Text::from_str(alloc, raw)?;
    let origin = origin_of(&doc)?;
    let shared = lying_in(alloc, doc, space, origin)?;
    let first = output(alloc, raw, shared)?;
    let all = one(alloc, first)?;
    Ok(all)
}

/// The id that a document had.
fn old_id(alloc: Global, raw: &str, doc: &Doc) -> Result<Text, AllocError>
    ensures { IfOk result (λ old. old ≡ id_of_row raw.now doc.now) }
{
    let id = Text::from_str(alloc, id_of(raw, doc))?;
    Ok(id)
}

/// The id that a document of a space gets.
fn id_in(alloc: Global, space: &Text, doc: &Doc, old: &Text) -> Result<Text, AllocError>
    ensures { IfOk result (λ new. new ≡ id_of_object space.now doc.now.type_name old.now) }
{
    let id = new_id(alloc, space.as_str(), doc.type_name(), old.as_str())?;
    Ok(id)
}

/// The document that leads from the old id to the new one.
fn alias_of(
    alloc: Global,
    version: Ver,
    space: &Text,
    doc: &Doc,
    old: &Text,
    new: &Text,
) -> Result<Output, AllocError>
    ensures { IfOk result (λ o. pair_of o ≡ (raw_of_alias space.now doc.now.type_name old.now, doc_of_alias version space.now doc.now.type_name old.now new.now)) }
{
    let name = doc.type_name();
    let raw = alias_raw(alloc, space.as_str(), name, old.as_str())?;
    let alias = alias_doc(
        alloc,
        version,
        space.as_str(),
        name,
        old.as_str(),
        new.as_str(),
    )?;
    output(alloc, raw, alias)
}

/// The raw id of an object that lies in no space of its own.
fn raw_of(alloc: Global, doc: &Doc, id: &Text) -> Result<Text, AllocError>
    ensures { IfOk result (λ raw. raw ≡ joined doc.now.type_name id.now) }
{
    let name = doc.type_name();
    let id = id.as_str();
    let raw = format!(in alloc; "{name}:{id}")?;
    Ok(Text::from_string(raw))
}

/// The document in a list of one space.
fn lying_in(
    alloc: Global,
    mut doc: Doc,
    space: Text,
    origin: Option<Text>,
) -> Result<Doc, AllocError>
    ensures { IfOk result (λ d. d ≡ shared_doc doc space origin) }
{
    let mut spaces = List::new(alloc);
    spaces.push(space)?;
    doc.namespace = None;
    doc.namespaces = Some(spaces);
    doc.origin = origin;
    Ok(doc)
}

fn origin_of(doc: &Doc) -> Result<Option<Text>, AllocError>
    ensures { IfOk result (λ copy. copy ≡ doc.now.origin) }
{
    let copy = copied_text(&doc.origin)?;
    Ok(copy)
}

pub(crate) fn copied_text(text: &Option<Text>) -> Result<Option<Text>, AllocError>
    ensures { IfOk result (λ copy. copy ≡ text.now) }
{
    let copy = text.clone()?;
    Ok(copy)
}

pub(crate) fn output(alloc: Global, raw: Text, doc: Doc) -> Result<Output, AllocError>
    ensures { IfOk result (λ o. pair_of o ≡ (raw, doc)) }
{
    let doc = SharedDoc::new(alloc, doc)?;
    Ok(Output { raw, doc })
}

pub(crate) fn one(alloc: Global, first: Output) -> Result<List<Output>, AllocError>
    ensures { IfOk result (λ all. pairs_of all ≡ pair_of first ∷ []) }
{
    let mut all = List::new(alloc);
    all.push(first)?;
    Ok(all)
}

fn both(alloc: Global, first: Output, second: Output) -> Result<List<Output>, AllocError>
    ensures { IfOk result (λ all. pairs_of all ≡ pair_of first ∷ pair_of second ∷ []) }
{
    let mut all = List::new(alloc);
    all.push(first)?;
    all.push(second)?;
    Ok(all)
}
