ghost use Rattle.std.specs.Prelude.{◌≡◌, IfOk, Some, option_map, option_and_then, map};
ghost use Rattle.base_model.specs.Outcomes.{Outcome};
ghost use Rattle.document_model.specs.Migrations.{moved_refs, moved_ref, outcome, outcome_known, became_shareable as became};
ghost use Rattle.document_model.specs.Registries.{known, latest, too_new, fits_kind};
ghost use Rattle.document_model.specs.Documents.{lists as is_listed};
ghost use Rattle.doc_transform.specs.Transforming.{effects, pairs_of, outcome_of, changed_over, shares_over, lifted_doc as doc_lifted};

use crate::ids::{fits, is_too_new};
use crate::lifting::apply_to_object;
use crate::outcome::{Migrated, Output};
use crate::sharing::{copied_text, one, output, share};
use document_model::{Ref, is_missing_or_below};
use plain_data::{List, Text};
use saved_doc::Doc;
use share_ids::new_id;
use space_scope::{Kind, SpaceId};
use std::alloc::{AllocError, Global};
use type_registry::Registry;
use version_token::Ver;

/// What a registry makes of a document under its raw id. The first that applies is answered:
/// `Removed` where its type was removed; `Unknown` where its type isn't known; `TooNew` where its
/// stamp is above the latest version of its type, or there is no latest version; `Corrupt` where it
/// doesn't fit its raw id; else its outputs. Of these the document itself comes first, and where
/// its id changed the alias document of the old one follows.
pub fn migrate(alloc: Global, reg: &Registry, raw: &str, doc: &Doc) -> Result<Migrated, AllocError>
    ensures { IfOk result (λ m. outcome_of m ≡ outcome effects reg.now raw.now doc.now) }
{
    if has_removed_type(reg, doc) {
        return Ok(Migrated::Removed);
    }
    match kind_of(reg, doc) {
        Some(kind) => {
            let migrated = migrate_known(alloc, reg, kind, raw, doc)?;
            Ok(migrated)
        }
        None => Ok(Migrated::Unknown),
    }
}

fn migrate_known(
    alloc: Global,
    reg: &Registry,
    kind: Kind,
    raw: &str,
    doc: &Doc,
) -> Result<Migrated, AllocError>
    requires { Some kind ≡ option_map (λ t. t.kind) (known reg.now doc.now.type_name) }
    ensures { IfOk result (λ m. outcome_of m ≡ outcome_known effects reg.now (known reg.now doc.now.type_name) raw.now doc.now) }
{
    if is_newer(reg, doc) {
        return Ok(Migrated::TooNew);
    }
    if !fits_registry(reg, kind, raw, doc) {
        return Ok(Migrated::Corrupt);
    }
    let outputs = outputs_of(alloc, reg, raw, doc)?;
    Ok(Migrated::Outputs(outputs))
}

fn has_removed_type(reg: &Registry, doc: &Doc) -> bool
    ensures { result ≡ is_listed doc.now.type_name reg.now.removed }
{
    reg.is_removed(doc.type_name())
}

fn kind_of(reg: &Registry, doc: &Doc) -> Option<Kind>
    ensures { result ≡ option_map (λ t. t.kind) (known reg.now doc.now.type_name) }
{
    reg.kind_of(doc.type_name())
}

fn is_newer(reg: &Registry, doc: &Doc) -> bool
    ensures { result ≡ too_new doc.now.stamp (option_and_then latest (known reg.now doc.now.type_name)) }
{
    is_too_new(doc.stamp, reg.latest_of(doc.type_name()))
}

fn fits_registry(reg: &Registry, kind: Kind, raw: &str, doc: &Doc) -> bool
    ensures { result ≡ fits_kind kind (option_and_then (λ t. t.shareable_at) (known reg.now doc.now.type_name)) raw.now doc.now }
{
    fits(kind, reg.shareable_at(doc.type_name()), raw, doc)
}

fn outputs_of(
    alloc: Global,
    reg: &Registry,
    raw: &str,
    doc: &Doc,
) -> Result<List<Output>, AllocError>
    ensures { IfOk result (λ all. pairs_of all
        ≡ changed_over (shares_over (option_and_then (λ t. t.shareable_at) (known reg.now doc.now.type_name)) doc.now.stamp)
        reg.now.version raw.now (doc_lifted reg.now (known reg.now doc.now.type_name) doc.now)) }
{
    let lifted = lifted_doc(alloc, reg, doc)?;
    if became_shareable(reg, doc.type_name(), doc.stamp) {
        let all = share(alloc, reg.version(), raw, lifted)?;
        Ok(all)
    } else {
        let raw = Text::from_str(alloc, raw)?;
        let first = output(alloc, raw, lifted)?;
        let all = one(alloc, first)?;
        Ok(all)
    }
}

/// Whether the objects of the type became shareable above a version, or at all where there is none.
fn became_shareable(reg: &Registry, name: &str, since: Option<Ver>) -> bool
    ensures shares { result ≡ shares_over (option_and_then (λ t. t.shareable_at) (known reg.now name.now)) since }
    ensures model { result ≡ became (known reg.now name.now) since }
{
    let shareable_at = reg.shareable_at(name);
    is_above(shareable_at, since)
}

fn is_above(version: Option<Ver>, since: Option<Ver>) -> bool
    ensures { result ≡ shares_over version since }
{
    match version {
        Some(version) => is_missing_or_below(since, version),
        None => false,
    }
}

/// The document with references, attributes and stamps of the registry's version.
fn lifted_doc(alloc: Global, reg: &Registry, doc: &Doc) -> Result<Doc, AllocError>
    ensures { IfOk result (λ d. d ≡ doc_lifted reg.now (known reg.now doc.now.type_name) doc.now) }
{
    let name = doc.type_name();
    let ops = reg.ops_above(alloc, name, doc.stamp)?;
    let attributes = doc.attributes().clone()?;
    let attributes = apply_to_object(alloc, &ops, attributes)?;
    Ok(Doc {
        type_name: doc.type_name.clone()?,
        attributes,
        references: moved_references(alloc, reg, doc)?,
        namespace: copied_id(&doc.namespace)?,
        namespaces: copied_spaces(&doc.namespaces)?,
        stamp: reg.latest_of(name),
        core: Some(reg.version()),
        updated_at: copied_text(&doc.updated_at)?,
        origin: copied_text(&doc.origin)?,
    })
}

fn copied_id(id: &Option<SpaceId>) -> Result<Option<SpaceId>, AllocError>
    ensures { IfOk result (λ copy. copy ≡ id.now) }
{
    let copy = id.clone()?;
    Ok(copy)
}

fn copied_spaces(spaces: &Option<List<Text>>) -> Result<Option<List<Text>>, AllocError>
    ensures { IfOk result (λ copy. copy ≡ spaces.now) }
{
    let copy = spaces.clone()?;
    Ok(copy)
}

fn copied_references(references: &List<Ref>) -> Result<List<Ref>, AllocError>
    ensures { IfOk result (λ copy. copy ≡ references.now) }
{
    let copy = references.clone()?;
    Ok(copy)
}

/// The references of a document. In one with a space of its own, those to objects that became
/// shareable since it was written get their new ids.
fn moved_references(alloc: Global, reg: &Registry, doc: &Doc) -> Result<List<Ref>, AllocError>
    ensures { IfOk result (λ refs. refs ≡ moved_refs effects reg.now doc.now.namespace doc.now.core doc.now.references) }
{
    match &doc.namespace {
        Some(space) => moved_each(alloc, reg, space.as_str(), doc.core, &doc.references),
        None => copied_references(&doc.references),
    }
}

fn moved_each(
    alloc: Global,
    reg: &Registry,
    space: &str,
    core: Option<Ver>,
    references: &List<Ref>,
) -> Result<List<Ref>, AllocError>
    ensures { IfOk result (λ refs. refs ≡ map (moved_ref effects reg.now space.now core) references.now) }
{
    let mut all = List::new(alloc);
    for reference in references.as_slice() {
        all.push(moved_reference(alloc, reg, space, core, reference)?)?;
    }
    Ok(all)
}

fn moved_reference(
    alloc: Global,
    reg: &Registry,
    space: &str,
    core: Option<Ver>,
    reference: &Ref,
) -> Result<Ref, AllocError>
    ensures { IfOk result (λ r. r ≡ moved_ref effects reg.now space.now core reference.now) }
{
    let name = reference.name.clone()?;
    let type_name = reference.type_name.clone()?;
    let id = if became_shareable(reg, reference.type_name.as_str(), core) {
        new_id(
            alloc,
            space,
            reference.type_name.as_str(),
            reference.id.as_str(),
        )?
    } else {
        reference.id.clone()?
    };
    Ok(Ref {
        name,
        type_name,
        id,
    })
}
