ghost use Rattle.std.specs.Prelude.{◌≡◌, IfOk, IfErr, IfSome, OnOk, IsOk, true, option_map, find};
ghost use Rattle.std.specs.List.{list_all};
ghost use Rattle.std.specs.Str.{bytes_eq};
ghost use Rattle.document_model.specs.Names.{is_type_name};
ghost use Rattle.so_js.specs.Tree.{is_sound, member_of};
ghost use Rattle.saved_doc.specs.Beside.{doc_of};
ghost use Rattle.saved_doc.specs.Reading.{Gives, Refuses, optional, version_in, type_of as type_in_tree, attributes_of, references_of as references_in_tree, namespace_of as namespace_in_tree, namespaces_of as namespaces_in_tree, stamp_of as stamp_in_tree, note_of as note_in_tree, is_known_key, only_known, doc_in};
ghost use Rattle.saved_doc.specs.Stored.{is_stored};
ghost use Rattle.saved_doc.specs.Trees.{is_object as is_tree_object};

use crate::doc::Doc;
use crate::error::DocError;
use crate::parts::{
    read_old_stamp, read_references, read_space_id, read_spaces, read_text, read_type_name,
    read_version,
};
use document_model::{Ref, is_document_member};
use plain_data::{List, Text};
use so_js::{Js, Member, member};
use space_scope::SpaceId;
use std::alloc::Global;
use version_token::Ver;

/// The document that the tree stands for.
///
/// The members are looked at in this order, and the first fault is answered: `type`, the one named
/// as the type, `references`, `namespace`, `namespaces`, `typeMigrationVersion`,
/// `migrationVersion`, `coreMigrationVersion`, `updated_at`, `originId`. The faults are
/// `MissingField`; `WrongKind`, also where the tree is no object; `BadVersion`; `BadSpace`; and last
/// `UnknownField` where there is another member. `Memory` may come at any place.
pub fn from_js(alloc: Global, js: &Js) -> Result<Doc, DocError>
    requires { is_sound js.now ≡ true }
    ensures exact { Gives result (doc_in js.now) }
    ensures stored { IfOk result (λ doc. is_stored doc ≡ true) }
{
    let beside = read_beside(alloc, js)?;
    match member(js, beside.type_name.as_str()) {
        Some(attributes) => {
            let attributes = attributes.clone()?;
            Ok(beside.with(attributes))
        }
        None => Err(DocError::MissingField),
    }
}

/// As `from_js`, with the attributes moved and not copied.
pub fn from_owned_js(alloc: Global, js: Js) -> Result<Doc, DocError>
    requires { is_sound js ≡ true }
    ensures exact { Gives result (doc_in js) }
    ensures stored { IfOk result (λ doc. is_stored doc ≡ true) }
{
    let beside = read_beside(alloc, &js)?;
    match into_member(js, beside.type_name.as_str()) {
        Some(attributes) => Ok(beside.with(attributes)),
        None => Err(DocError::MissingField),
    }
}

/// A document without its attributes.
#[derive(Debug, Drop)]
struct Beside {
    type_name: Text,
    references: List<Ref>,
    namespace: Option<SpaceId>,
    namespaces: Option<List<Text>>,
    stamp: Option<Ver>,
    core: Option<Ver>,
    updated_at: Option<Text>,
    origin: Option<Text>,
}

impl Beside {
    fn with(self, attributes: Js) -> Doc
        requires name { is_type_name self.type_name ≡ true }
        requires sound { is_sound attributes ≡ true }
        requires object { is_tree_object attributes ≡ true }
        ensures { result ≡ doc_of self attributes }
    {
        Doc {
            type_name: self.type_name,
            attributes,
            references: self.references,
            namespace: self.namespace,
            namespaces: self.namespaces,
            stamp: self.stamp,
            core: self.core,
            updated_at: self.updated_at,
            origin: self.origin,
        }
    }
}

fn read_beside(alloc: Global, js: &Js) -> Result<Beside, DocError>
    ensures ok { IfOk result (λ b. (a : Js) → attributes_of b.type_name js.now ≡ Ok a → doc_in js.now ≡ Ok (doc_of b a)) }
    ensures name { IfOk result (λ b. is_type_name b.type_name ≡ true) }
    ensures there { IfOk result (λ b. IsOk (attributes_of b.type_name js.now)) }
    ensures err { IfErr result (λ e. Refuses e (doc_in js.now)) }
{
    if !is_object(js) {
        return Err(DocError::WrongKind);
    }
    let type_name = type_of(alloc, js)?;
    check_attributes(type_name.as_str(), js)?;
    let references = references_of(alloc, js)?;
    let namespace = namespace_of(alloc, js)?;
    let namespaces = namespaces_of(alloc, js)?;
    let stamp = stamp_of(alloc, type_name.as_str(), js)?;
    let core = version_of(alloc, "coreMigrationVersion", js)?;
    let updated_at = note_of(alloc, "updated_at", js)?;
    let origin = note_of(alloc, "originId", js)?;
    if !has_only_known(type_name.as_str(), js) {
        return Err(DocError::UnknownField);
    }
    Ok(Beside {
        type_name,
        references,
        namespace,
        namespaces,
        stamp,
        core,
        updated_at,
        origin,
    })
}

fn is_object(js: &Js) -> bool
    ensures { result ≡ is_tree_object js.now }
{
    matches!(js, Js::Object(_))
}

fn type_of(alloc: Global, js: &Js) -> Result<Text, DocError>
    ensures exact { Gives result (type_in_tree js.now) }
    ensures name { IfOk result (λ text. is_type_name text ≡ true) }
{
    match member(js, "type") {
        Some(js) => read_type_name(alloc, js),
        None => Err(DocError::MissingField),
    }
}

fn check_attributes(type_name: &str, js: &Js) -> Result<(), DocError>
    ensures ok { OnOk result (IsOk (attributes_of type_name.now js.now)) }
    ensures err { IfErr result (λ e. Refuses e (attributes_of type_name.now js.now)) }
{
    match member(js, type_name) {
        Some(js) if is_object(js) => Ok(()),
        Some(_) => Err(DocError::WrongKind),
        None => Err(DocError::MissingField),
    }
}

fn references_of(alloc: Global, js: &Js) -> Result<List<Ref>, DocError>
    ensures { Gives result (references_in_tree js.now) }
{
    match member(js, "references") {
        Some(js) => read_references(alloc, js),
        None => Ok(List::new(alloc)),
    }
}

fn namespace_of(alloc: Global, js: &Js) -> Result<Option<SpaceId>, DocError>
    ensures { Gives result (namespace_in_tree js.now) }
{
    match member(js, "namespace") {
        Some(js) => {
            let id = read_space_id(alloc, js)?;
            Ok(Some(id))
        }
        None => Ok(None),
    }
}

fn namespaces_of(alloc: Global, js: &Js) -> Result<Option<List<Text>>, DocError>
    ensures { Gives result (namespaces_in_tree js.now) }
{
    match member(js, "namespaces") {
        Some(js) => {
            let spaces = read_spaces(alloc, js)?;
            Ok(Some(spaces))
        }
        None => Ok(None),
    }
}

/// Both forms are read, and the newer one counts.
fn stamp_of(alloc: Global, type_name: &str, js: &Js) -> Result<Option<Ver>, DocError>
    ensures { Gives result (stamp_in_tree type_name.now js.now) }
{
    let newer = version_of(alloc, "typeMigrationVersion", js)?;
    let older = match member(js, "migrationVersion") {
        Some(js) => read_old_stamp(alloc, type_name, js)?,
        None => None,
    };
    match newer {
        Some(version) => Ok(Some(version)),
        None => Ok(older),
    }
}

fn version_of(alloc: Global, key: &str, js: &Js) -> Result<Option<Ver>, DocError>
    ensures { Gives result (optional version_in (member_of key.now js.now)) }
{
    match member(js, key) {
        Some(js) => {
            let version = read_version(alloc, js)?;
            Ok(Some(version))
        }
        None => Ok(None),
    }
}

fn note_of(alloc: Global, key: &str, js: &Js) -> Result<Option<Text>, DocError>
    ensures { Gives result (note_in_tree key.now js.now) }
{
    match member(js, key) {
        Some(js) => {
            let text = read_text(alloc, js)?;
            Ok(Some(text))
        }
        None => Ok(None),
    }
}

fn has_only_known(type_name: &str, js: &Js) -> bool
    ensures { result ≡ only_known type_name.now js.now }
{
    match js {
        Js::Object(members) => are_known(type_name, members),
        _ => true,
    }
}

fn are_known(type_name: &str, members: &List<Member>) -> bool
    ensures { result ≡ list_all (λ m. is_known_key type_name.now m.key) members.now }
{
    for member in members.as_slice() {
        if !is_known(type_name, member.key.as_str()) {
            return false;
        }
    }
    true
}

fn is_known(type_name: &str, key: &str) -> bool
    ensures { result ≡ is_known_key type_name.now key.now }
{
    key == type_name || is_document_member(key)
}

/// The value of the object's member of this name.
fn into_member(js: Js, key: &str) -> Option<Js>
    requires { is_sound js ≡ true }
    ensures value { result ≡ member_of key.now js }
    ensures sound { IfSome result (λ value. is_sound value ≡ true) }
{
    match js {
        Js::Object(members) => value_in(members, key),
        _ => None,
    }
}

fn value_in(members: List<Member>, key: &str) -> Option<Js>
    requires { list_all (λ m. is_sound m.value) members ≡ true }
    ensures value { result ≡ option_map (λ m. m.value) (find (λ m. bytes_eq m.key key.now) members) }
    ensures sound { IfSome result (λ value. is_sound value ≡ true) }
{
    for member in members.into_vec() {
        if member.key.as_str() == key {
            return Some(member.value);
        }
    }
    None
}
