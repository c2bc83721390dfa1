ghost use Rattle.std.specs.Prelude.{◌≡◌, ◌≤◌, ◌++◌, [], length, IfOk, Ok, true, option_map, map};
ghost use Rattle.so_js.specs.Tree.{is_sound};
ghost use Rattle.so_js.specs.declared.js.Js.TheVariants.{Str};
ghost use Rattle.saved_doc.specs.Reading.{doc_in};
ghost use Rattle.saved_doc.specs.Stored.{is_stored};
ghost use Rattle.saved_doc.specs.Writing.{if_some, ver_js as js_of_version, ref_js as js_of_reference, refs_js, spaces_js as js_of_spaces, members_beside as members_of, place_among, placed, doc_js};

use crate::doc::Doc;
use document_model::Ref;
use plain_data::{List, Text};
use so_js::{Js, Member};
use space_scope::SpaceId;
use std::alloc::{AllocError, Global};
use version_token::Ver;

/// The document's tree: an object with its members in order of key, the attributes under the name
/// of its type. The stamp is written as `typeMigrationVersion`.
pub fn to_js(alloc: Global, doc: &Doc) -> Result<Js, AllocError>
    ensures value { IfOk result (λ js. js ≡ doc_js doc.now) }
    ensures sound { IfOk result (λ js. is_sound js ≡ true) }
    ensures reads_back { IfOk result (λ js. is_stored doc.now ≡ true → doc_in js ≡ Ok doc.now) }
{
    let beside = members_beside(alloc, doc)?;
    let key = doc.type_name.clone()?;
    let value = doc.attributes.clone()?;
    let members = place(beside, Member { key, value })?;
    Ok(Js::Object(members))
}

fn members_beside(alloc: Global, doc: &Doc) -> Result<List<Member>, AllocError>
    ensures { IfOk result (λ members. members ≡ members_of doc.now) }
{
    let fields = Fields::new(alloc)
        .with("coreMigrationVersion", version_js(alloc, doc.core)?)?
        .with("namespace", space_js(alloc, &doc.namespace)?)?
        .with("namespaces", spaces_js(alloc, &doc.namespaces)?)?
        .with("originId", text_js(alloc, &doc.origin)?)?
        .with("references", Some(references_js(alloc, &doc.references)?))?
        .with("type", Some(Js::Str(doc.type_name.clone()?)))?
        .with("typeMigrationVersion", version_js(alloc, doc.stamp)?)?
        .with("updated_at", text_js(alloc, &doc.updated_at)?)?;
    Ok(fields.members)
}

/// The members of an object so far, in order of key.
#[derive(Debug, Drop)]
struct Fields {
    members: List<Member>,
}

impl Fields {
    fn new(alloc: Global) -> Fields
        ensures { result.members ≡ [] }
    {
        Fields {
            members: List::new(alloc),
        }
    }

    /// With a member more where there is a value.
    fn with(self, key: &str, value: Option<Js>) -> Result<Fields, AllocError>
        ensures { IfOk result (λ f. f.members ≡ self.members ++ if_some key.now value) }
    {
        let Fields { mut members } = self;
        if let Some(value) = value {
            let key = Text::from_str(members.alloc(), key)?;
            members.push(Member { key, value })?;
        }
        Ok(Fields { members })
    }
}

fn version_js(alloc: Global, version: Option<Ver>) -> Result<Option<Js>, AllocError>
    ensures { IfOk result (λ js. js ≡ option_map js_of_version version) }
{
    match version {
        Some(version) => {
            let text = Text::from_string(version.text(alloc)?);
            Ok(Some(Js::Str(text)))
        }
        None => Ok(None),
    }
}

fn text_js(alloc: Global, text: &Option<Text>) -> Result<Option<Js>, AllocError>
    ensures { IfOk result (λ js. js ≡ option_map Str text.now) }
{
    match text {
        Some(text) => {
            let text = Text::from_str(alloc, text.as_str())?;
            Ok(Some(Js::Str(text)))
        }
        None => Ok(None),
    }
}

fn space_js(alloc: Global, space: &Option<SpaceId>) -> Result<Option<Js>, AllocError>
    ensures { IfOk result (λ js. js ≡ option_map Str space.now) }
{
    match space {
        Some(space) => {
            let text = Text::from_str(alloc, space.as_str())?;
            Ok(Some(Js::Str(text)))
        }
        None => Ok(None),
    }
}

fn spaces_js(alloc: Global, spaces: &Option<List<Text>>) -> Result<Option<Js>, AllocError>
    ensures { IfOk result (λ js. js ≡ option_map js_of_spaces spaces.now) }
{
    match spaces {
        Some(spaces) => {
            let texts = texts_js(alloc, spaces)?;
            Ok(Some(Js::Items(texts)))
        }
        None => Ok(None),
    }
}

fn texts_js(alloc: Global, texts: &List<Text>) -> Result<List<Js>, AllocError>
    ensures { IfOk result (λ all. all ≡ map Str texts.now) }
{
    let mut all = List::new(alloc);
    for text in texts.as_slice() {
        let text = text.clone()?;
        all.push(Js::Str(text))?;
    }
    Ok(all)
}

fn references_js(alloc: Global, references: &List<Ref>) -> Result<Js, AllocError>
    ensures { IfOk result (λ js. js ≡ refs_js references.now) }
{
    let mut all = List::new(alloc);
    for reference in references.as_slice() {
        all.push(reference_js(alloc, reference)?)?;
    }
    Ok(Js::Items(all))
}

fn reference_js(alloc: Global, reference: &Ref) -> Result<Js, AllocError>
    ensures { IfOk result (λ js. js ≡ js_of_reference reference.now) }
{
    let fields = Fields::new(alloc)
        .with("id", Some(Js::Str(reference.id.clone()?)))?
        .with("name", Some(Js::Str(reference.name.clone()?)))?
        .with("type", Some(Js::Str(reference.type_name.clone()?)))?;
    Ok(Js::Object(fields.members))
}

/// With the member before the first one whose key is above its own.
fn place(members: List<Member>, member: Member) -> Result<List<Member>, AllocError>
    ensures { IfOk result (λ all. all ≡ placed member members) }
{
    let mut members = members.into_vec();
    let at = place_of(&members, &member.key);
    members.insert(at, member)?;
    Ok(List::from_vec(members))
}

fn place_of(members: &[Member], key: &Text) -> usize
    ensures place { result ≡ place_among key.now members.now }
    ensures within { result ≤ length members.now }
{
    for (place, other) in members.iter().enumerate() {
        if *key < other.key {
            return place;
        }
    }
    members.len()
}
