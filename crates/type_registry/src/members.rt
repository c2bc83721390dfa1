ghost use Rattle.std.specs.Prelude.{◌≡◌};
ghost use Rattle.std.specs.List.{list_all};
ghost use Rattle.type_registry.specs.Reading.{only, is_registry_key, is_type_key, is_migration_key};

use plain_data::List;
use so_js::{Js, Member};

/// Whether each member of the tree is one that a registry has, or the member `line`.
pub fn is_registry_alone(js: &Js) -> bool
    ensures { result ≡ only is_registry_key js.now }
{
    match js {
        Js::Object(members) => are_of_registry(members),
        _ => true,
    }
}

fn are_of_registry(members: &List<Member>) -> bool
    ensures { result ≡ list_all (λ m. is_registry_key m.key) members.now }
{
    members
        .as_slice()
        .iter()
        .all(|m| is_of_registry(m.key.as_str()))
}

fn is_of_registry(key: &str) -> bool
    ensures { result ≡ is_registry_key key.now }
{
    matches!(key, "line" | "version" | "types" | "removed")
}

/// Whether each member of the tree is one that a type has.
pub fn is_type_alone(js: &Js) -> bool
    ensures { result ≡ only is_type_key js.now }
{
    match js {
        Js::Object(members) => are_of_type(members),
        _ => true,
    }
}

fn are_of_type(members: &List<Member>) -> bool
    ensures { result ≡ list_all (λ m. is_type_key m.key) members.now }
{
    members
        .as_slice()
        .iter()
        .all(|m| is_of_type(m.key.as_str()))
}

fn is_of_type(key: &str) -> bool
    ensures { result ≡ is_type_key key.now }
{
    matches!(key, "name" | "kind" | "shareableAt" | "migrations")
}

/// Whether each member of the tree is one that a migration has.
pub fn is_migration_alone(js: &Js) -> bool
    ensures { result ≡ only is_migration_key js.now }
{
    match js {
        Js::Object(members) => are_of_migration(members),
        _ => true,
    }
}

fn are_of_migration(members: &List<Member>) -> bool
    ensures { result ≡ list_all (λ m. is_migration_key m.key) members.now }
{
    members
        .as_slice()
        .iter()
        .all(|m| is_of_migration(m.key.as_str()))
}

fn is_of_migration(key: &str) -> bool
    ensures { result ≡ is_migration_key key.now }
{
    matches!(key, "version" | "ops")
}
