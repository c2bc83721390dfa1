ghost use Rattle.std.specs.Prelude.{◌≡◌, IfOk, true, false};
ghost use Rattle.document_model.specs.Names.{is_type_name};
ghost use Rattle.document_model.specs.Registries.{known};
ghost use Rattle.space_scope.specs.Spaces.{space_text};
ghost use Rattle.so_js.specs.Tree.{is_sound};
ghost use Rattle.saved_doc.specs.Trees.{is_object};
ghost use Rattle.call_model.specs.Acts.{created as created_by, overwritten as overwritten_by, updated as updated_by, respaced as respaced_by, new_space as new_space_in, new_spaces as new_spaces_in, latest_of as latest_in, or_else, or_old, is_unknown, stamp_too_new};
ghost use Rattle.call_words.specs.Mapped.{given_of, new_object_of, change_of};
ghost use Rattle.call_words.specs.Product.{product_words, merged as merged_in};

use crate::lifting::lifted;
use crate::merging::merged;
use call_words::{Change, NewObject, Ref, kind_of};
use plain_data::{List, Text};
use saved_doc::Doc;
use so_js::Js;
use space_scope::{Kind, Space, SpaceId};
use std::alloc::{AllocError, Global};
use type_registry::Registry;
use version_token::Ver;

/// The document of a new object, as the product of the registry's version writes it in this space.
pub(crate) fn created(
    alloc: Global,
    reg: &Registry,
    space: &Space,
    object: &NewObject,
    at: &Option<Text>,
) -> Result<Doc, AllocError>
    requires known { is_unknown reg.now object.now.type_name ≡ false }
    requires stamp { stamp_too_new (known reg.now object.now.type_name) (given_of object.now.given) ≡ false }
    ensures { IfOk result (λ doc. doc ≡ created_by product_words reg.now (space_text space.now) (new_object_of object.now) at.now) }
{
    let name = object.type_name.as_str();
    let kind = kind_of(reg, name);
    let attributes = lifted(alloc, reg, name, object.given, &object.attributes)?;
    Ok(Doc {
        type_name: known_name(alloc, reg, name)?,
        attributes,
        references: copied_references(&object.references)?,
        namespace: new_space(kind, space)?,
        namespaces: new_spaces(alloc, kind, space)?,
        stamp: latest_of(reg, name),
        core: Some(reg.version()),
        updated_at: copied_text(at)?,
        origin: copied_text(&object.origin)?,
    })
}

/// The name of a type that is known.
fn known_name(alloc: Global, reg: &Registry, name: &str) -> Result<Text, AllocError>
    requires { is_unknown reg.now name.now ≡ false }
    ensures value { IfOk result (λ copy. copy ≡ name.now) }
    ensures named { IfOk result (λ copy. is_type_name copy ≡ true) }
{
    match reg.kind_of(name) {
        Some(_) => {
            let copy = Text::from_str(alloc, name)?;
            Ok(copy)
        }
        None => unreachable!(),
    }
}

#[tactic(auto, using(crate::proofs::Known::latest_over))]
fn latest_of(reg: &Registry, name: &str) -> Option<Ver>
    ensures { result ≡ latest_in (known reg.now name.now) }
{
    reg.latest_of(name)
}

#[tactic(auto, unfolding(base_model::specs::Keyed::same))]
fn new_space(kind: Kind, space: &Space) -> Result<Option<SpaceId>, AllocError>
    ensures { IfOk result (λ own. own ≡ new_space_in kind (space_text space.now)) }
{
    match (kind, space) {
        (Kind::Single, Space::Named(id)) => {
            let copy = id.clone()?;
            Ok(Some(copy))
        }
        _ => Ok(None),
    }
}

fn new_spaces(alloc: Global, kind: Kind, space: &Space) -> Result<Option<List<Text>>, AllocError>
    ensures { IfOk result (λ spaces. spaces ≡ new_spaces_in kind (space_text space.now)) }
{
    match kind {
        Kind::Multiple | Kind::MultipleIsolated => {
            let mut spaces = List::new(alloc);
            spaces.push(Text::from_str(alloc, space.text())?)?;
            Ok(Some(spaces))
        }
        Kind::Single | Kind::Agnostic => Ok(None),
    }
}

/// The new document with the spaces of the old one, and its origin where it has none of its own.
pub(crate) fn overwritten(new: Doc, old: &Doc) -> Result<Doc, AllocError>
    ensures { IfOk result (λ doc. doc ≡ overwritten_by new old.now) }
{
    let mut doc = new;
    doc.origin = either(&doc.origin, &old.origin)?;
    doc.namespaces = copied_spaces(&old.namespaces)?;
    Ok(doc)
}

/// The old document with the attributes that the update gives, and references and time where they
/// are given.
pub(crate) fn updated(
    alloc: Global,
    change: &Change,
    at: &Option<Text>,
    old: &Doc,
) -> Result<Doc, AllocError>
    ensures { IfOk result (λ doc. doc ≡ updated_by product_words (change_of change.now) at.now old.now) }
{
    let attributes = new_attributes(alloc, old, change)?;
    Ok(Doc {
        type_name: old.type_name.clone()?,
        attributes,
        references: new_references(change, old)?,
        namespace: copied_id(&old.namespace)?,
        namespaces: copied_spaces(&old.namespaces)?,
        stamp: old.stamp,
        core: old.core,
        updated_at: either(at, &old.updated_at)?,
        origin: copied_text(&old.origin)?,
    })
}

fn new_attributes(alloc: Global, old: &Doc, change: &Change) -> Result<Js, AllocError>
    ensures value { IfOk result (λ js. js ≡ merged_in old.now.attributes change.now.attributes) }
    ensures sound { IfOk result (λ js. is_sound js ≡ true) }
    ensures object { IfOk result (λ js. is_object js ≡ true) }
{
    merged(alloc, old.attributes(), change.attributes.as_js())
}

fn new_references(change: &Change, old: &Doc) -> Result<List<Ref>, AllocError>
    ensures { IfOk result (λ all. all ≡ or_old change.now.references old.now.references) }
{
    match &change.references {
        Some(references) => copied_references(references),
        None => copied_references(&old.references),
    }
}

/// The old document in these spaces, with the time where it is given.
pub(crate) fn respaced(spaces: List<Text>, at: &Option<Text>, old: &Doc) -> Result<Doc, AllocError>
    ensures { IfOk result (λ doc. doc ≡ respaced_by spaces at.now old.now) }
{
    let mut doc = old.clone()?;
    doc.namespaces = Some(spaces);
    doc.updated_at = either(at, &old.updated_at)?;
    Ok(doc)
}

fn either(given: &Option<Text>, old: &Option<Text>) -> Result<Option<Text>, AllocError>
    ensures { IfOk result (λ text. text ≡ or_else given.now old.now) }
{
    match given {
        Some(text) => {
            let copy = text.clone()?;
            Ok(Some(copy))
        }
        None => copied_text(old),
    }
}

fn copied_references(references: &List<Ref>) -> Result<List<Ref>, AllocError>
    ensures { IfOk result (λ copy. copy ≡ references.now) }
{
    let copy = references.clone()?;
    Ok(copy)
}

fn copied_id(id: &Option<SpaceId>) -> Result<Option<SpaceId>, AllocError>
    ensures { IfOk result (λ copy. copy ≡ id.now) }
{
    let copy = id.clone()?;
    Ok(copy)
}

fn copied_spaces(spaces: &Option<List<Text>>) -> Result<Option<List<Text>>, AllocError>
    ensures { IfOk result (λ copy. copy ≡ spaces.now) }
{
    let copy = spaces.clone()?;
    Ok(copy)
}

fn copied_text(text: &Option<Text>) -> Result<Option<Text>, AllocError>
    ensures { IfOk result (λ copy. copy ≡ text.now) }
{
    let copy = text.clone()?;
    Ok(copy)
}
