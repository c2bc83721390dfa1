//! The calls that are measured. Each function does one of them `rounds` times with the document of
//! a tree, and counts something of each answer.
ghost use Rattle.std.specs.Prelude.{◌≡◌, IfOk, true};
ghost use Rattle.so_js.specs.Tree.{is_sound};

use crate::dashboard::REGISTRY;
use doc_transform::{Migrated, migrate};
use saved_doc::{Doc, from_js, to_js};
use so_js::{Js, parse};
use std::alloc::{AllocError, Global};
use type_registry::Registry;

/// The tree that a text stands for; want of memory where it stands for none.
pub(crate) fn tree(alloc: Global, text: &str) -> Result<Js, AllocError>
    ensures { IfOk result (λ js. is_sound js ≡ true) }
{
    match parse(alloc, text.as_bytes(), 64) {
        Ok(js) => Ok(js),
        Err(_) => Err(AllocError),
    }
}

/// The document of a tree; want of memory where it has none.
fn document(alloc: Global, js: &Js) -> Result<Doc, AllocError>
    requires { is_sound js.now ≡ true }
{
    match from_js(alloc, js) {
        Ok(doc) => Ok(doc),
        Err(_) => Err(AllocError),
    }
}

/// The registry that migrates; want of memory where its text stands for none.
fn registry(alloc: Global) -> Result<Registry, AllocError> {
    let js = tree(alloc, REGISTRY)?;
    match Registry::read(alloc, &js) {
        Ok(reg) => Ok(reg),
        Err(_) => Err(AllocError),
    }
}

/// Reads the document from its tree, and counts its references.
pub(crate) fn read_again(alloc: Global, js: &Js, rounds: u64) -> Result<u64, AllocError>
    requires { is_sound js.now ≡ true }
{
    let mut count = 0u64;
    for _ in 0..rounds {
        let doc = document(alloc, js)?;
        count = count.wrapping_add(doc.references.len() as u64);
    }
    Ok(count)
}

/// Migrates the document, and counts the documents that come of it.
pub(crate) fn migrate_again(alloc: Global, js: &Js, rounds: u64) -> Result<u64, AllocError>
    requires { is_sound js.now ≡ true }
{
    let reg = registry(alloc)?;
    let doc = document(alloc, js)?;
    let mut count = 0u64;
    for _ in 0..rounds {
        let migrated = migrate(alloc, &reg, "a:dashboard:d1", &doc)?;
        count = count.wrapping_add(outputs_in(&migrated));
    }
    Ok(count)
}

fn outputs_in(migrated: &Migrated) -> u64 {
    match migrated {
        Migrated::Outputs(outputs) => outputs.len() as u64,
        _ => 0,
    }
}

/// Makes the document's tree, and counts the trees that are objects.
pub(crate) fn write_again(alloc: Global, js: &Js, rounds: u64) -> Result<u64, AllocError>
    requires { is_sound js.now ≡ true }
{
    let doc = document(alloc, js)?;
    let mut count = 0u64;
    for _ in 0..rounds {
        let tree = to_js(alloc, &doc)?;
        count = count.wrapping_add(tree.as_object().is_some() as u64);
    }
    Ok(count)
}
