ghost use Rattle.std.specs.Prelude.{◌≡◌, ◌++◌, IfOk, IfSome, true, Some, option_map, option_and_then};
ghost use Rattle.std.specs.List.{list_all};
ghost use Rattle.std.specs.Option.{option_copied};
ghost use Rattle.base_model.specs.Keyed.{at};
ghost use Rattle.document_model.specs.Documents.{lists as is_listed};
ghost use Rattle.document_model.specs.Migrations.{ops_above as all_ops_above};
ghost use Rattle.document_model.specs.Names.{is_type_name};
ghost use Rattle.document_model.specs.Registries.{known, latest, greatest, greater, type_names, names_apart};
ghost use Rattle.so_js.specs.Tree.{is_sound};
ghost use Rattle.transform_ops.specs.Effects.{op_is_sound};
ghost use Rattle.type_registry.specs.Reading.{Gives, registry_in};
ghost use Rattle.type_registry.specs.Readers.{ops_known};

use crate::error::RegError;
use crate::members::is_registry_alone;
use crate::reading::{Types, removed_of, types_of, version_of};
use crate::texts::lists;
use crate::types::{Listed, Migration};
use document_model::{is_below, is_missing_or_below};
use plain_data::{List, Text};
use so_js::Js;
use space_scope::Kind;
use std::alloc::{AllocError, Global};
use std::marker::Model;
use transform_ops::Op;
use version_token::Ver;

/// The types that a version of the product knows, and the names of those that it removed. Contracts
/// see the version, what is known under each name in the order of the list, and the removed names.
#[derive(Debug, Drop)]
pub struct Registry {
    version: Ver,
    names: List<Text>,
    types: List<Listed>,
    removed: List<Text>,
}

impl Model for Registry {
    ghost use Rattle.std.specs.Prelude.{◌≡◌, true};
    ghost use Rattle.document_model.specs.Registries.{Registry as Whole, type_names, names_apart};
    ghost use Rattle.transform_ops.specs.declared.op.Op.{Op as Operation};
    ghost use Rattle.type_registry.specs.Codes.{registry_code};

    ghost Value = { Whole Operation };

    ghost coded = { registry_code };

    ghost view = { λ r. record { version = r.version; types = r.types; removed = r.removed } };

    ghost invariant = { λ r. (r.names ≡ type_names r.types) × (names_apart r.types ≡ true) };
}

impl Registry {
    /// The registry that the tree stands for: an object with `version`, `types`, and `removed` where
    /// it is there. A member `line` is passed over.
    ///
    /// The members are looked at in this order, and the first fault is answered: `version`; the
    /// types in their order, each with `name`, `kind`, `shareableAt`, `migrations`, and each of
    /// these with `version` and `ops`; `removed`. A member's faults are `MissingField`, `WrongKind`,
    /// and then its own: `BadVersion`; `BadType` before `DuplicateType`; `BadKind`, at `shareableAt`
    /// after `BadVersion`; `UnsortedVersions`; `BadOp`. `UnknownField` of each object comes after
    /// its members. `Memory` may come at any place.
    pub fn read(alloc: Global, js: &Js) -> Result<Registry, RegError>
        requires { is_sound js.now ≡ true }
        ensures exact { Gives result (registry_in js.now) }
        ensures apart { IfOk result (λ reg. names_apart reg.types ≡ true) }
    {
        if js.as_object().is_none() {
            return Err(RegError::WrongKind);
        }
        let version = version_of(alloc, js)?;
        let Types { names, types } = match types_of(alloc, version, js) {
            Ok(types) => types,
            Err(error) => return Err(error),
        };
        let removed = removed_of(alloc, &names, js)?;
        if !is_registry_alone(js) {
            return Err(RegError::UnknownField);
        }
        Ok(Registry {
            version,
            names,
            types,
            removed,
        })
    }

    /// The version of the product. Takes no memory.
    pub fn version(&self) -> Ver
        ensures { result ≡ self.now.version }
    {
        self.version
    }

    /// The names of its types in the order of its list, without that of alias documents. They
    /// differ. Takes no memory.
    pub fn names(&self) -> &List<Text>
        ensures value { result.now ≡ type_names self.now.types }
        ensures apart { names_apart self.now.types ≡ true }
    {
        &self.names
    }

    /// The names of the types that it removed, in their order. Takes no memory.
    pub fn removed_names(&self) -> &List<Text>
        ensures { result.now ≡ self.now.removed }
    {
        &self.removed
    }

    /// Whether it removed the type. Takes no memory.
    pub fn is_removed(&self, name: &str) -> bool
        ensures { result ≡ is_listed name.now self.now.removed }
    {
        lists(&self.removed, name)
    }

    /// The kind of a type, and `None` where it isn't known. The type of alias documents is known,
    /// and agnostic. What is known has a type name. Takes no memory.
    #[tactic(auto, unfolding(document_model::specs::Registries::known, base_model::specs::Keyed::same))]
    pub fn kind_of(&self, name: &str) -> Option<Kind>
        ensures value { result ≡ option_map (λ t. t.kind) (known self.now name.now) }
        ensures named { IfSome result (λ _. is_type_name name.now ≡ true) }
    {
        if name == "legacy-url-alias" {
            return Some(Kind::Agnostic);
        }
        let listed = listed(&self.types, name)?;
        Some(listed.kind)
    }

    /// The version at which the objects of a type became shareable. `None` where they didn't, and
    /// where the type isn't known. Takes no memory.
    #[tactic(auto, unfolding(document_model::specs::Registries::known, base_model::specs::Keyed::same))]
    pub fn shareable_at(&self, name: &str) -> Option<Ver>
        ensures { result ≡ option_and_then (λ t. t.shareable_at) (known self.now name.now) }
    {
        if name == "legacy-url-alias" {
            return None;
        }
        let listed = listed(&self.types, name)?;
        listed.shareable_at
    }

    /// The latest version of a type: the greatest of `shareable_at` and its migrations' versions.
    /// `None` where there is none, and where the type isn't known. Takes no memory.
    #[tactic(auto, unfolding(document_model::specs::Registries::known, document_model::specs::Registries::greatest, base_model::specs::Keyed::same))]
    pub fn latest_of(&self, name: &str) -> Option<Ver>
        ensures { result ≡ option_and_then latest (known self.now name.now) }
    {
        if name == "legacy-url-alias" {
            return None;
        }
        let listed = listed(&self.types, name)?;
        greatest_of(listed.shareable_at, &listed.migrations)
    }

    /// The operations of a type's versions above the stamp, in rising order of version; all of them
    /// where there is no stamp, and none where the type isn't known.
    #[tactic(auto, unfolding(document_model::specs::Registries::known, base_model::specs::Keyed::same))]
    pub fn ops_above(
        &self,
        alloc: Global,
        name: &str,
        stamp: Option<Ver>,
    ) -> Result<List<Op>, AllocError>
        ensures value { IfOk result (λ ops. ops ≡ ops_known stamp (known self.now name.now)) }
        ensures sound { IfOk result (λ ops. list_all op_is_sound ops ≡ true) }
    {
        if name == "legacy-url-alias" {
            return Ok(List::new(alloc));
        }
        match listed(&self.types, name) {
            Some(listed) => copied_above(alloc, stamp, &listed.migrations),
            None => Ok(List::new(alloc)),
        }
    }
}

#[tactic(auto, unfolding(base_model::specs::Keyed::at, base_model::specs::Keyed::same))]
fn listed<'a>(types: &'a List<Listed>, name: &str) -> Option<&'a Listed>
    ensures value { option_map (λ t. t.1) (option_copied result) ≡ at name.now types.now }
    ensures named { IfSome result (λ _. is_type_name name.now ≡ true) }
{
    for listed in types.as_slice() {
        if name == listed.name.as_str() {
            return Some(listed);
        }
    }
    None
}

#[tactic(auto, unfolding(document_model::specs::Registries::greatest))]
fn greatest_of(first: Option<Ver>, migrations: &List<Migration>) -> Option<Ver>
    ensures { result ≡ greatest first migrations.now }
{
    let mut found = first;
    for migration in migrations.as_slice() {
        found = Some(greater_of(found, migration.version));
    }
    found
}

fn greater_of(version: Option<Ver>, other: Ver) -> Ver
    ensures { result ≡ greater version other }
{
    match version {
        Some(version) if !is_below(version, other) => version,
        _ => other,
    }
}

fn copied_above(
    alloc: Global,
    stamp: Option<Ver>,
    migrations: &List<Migration>,
) -> Result<List<Op>, AllocError>
    ensures value { IfOk result (λ ops. ops ≡ all_ops_above stamp migrations.now) }
    ensures sound { IfOk result (λ ops. list_all op_is_sound ops ≡ true) }
{
    let mut all = List::new(alloc);
    for migration in migrations.as_slice() {
        if is_missing_or_below(stamp, migration.version) {
            all = with_copies(all, &migration.ops)?;
        }
    }
    Ok(all)
}

fn with_copies(mut all: List<Op>, ops: &List<Op>) -> Result<List<Op>, AllocError>
    ensures { IfOk result (λ more. more ≡ all ++ ops.now) }
{
    for op in ops.as_slice() {
        all.push(op.clone()?)?;
    }
    Ok(all)
}
