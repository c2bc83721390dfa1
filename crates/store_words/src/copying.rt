//! Copies of the parts of requests and replies, which equal them.
ghost use Rattle.std.specs.Prelude.{◌≡◌, IfOk};

use crate::refusal::Refusal;
use crate::reply::IndexSeen;
use alias_table::{Action, Pair};
use doc_query::{Query, Selected, Target, TypeKind, TypeVer};
use doc_table::{Item, Row, Write};
use kql_filter::Filter;
use plain_data::{List, Text};
use space_scope::Space;
use std::alloc::AllocError;

pub(crate) fn copy_name(name: &Option<Text>) -> Result<Option<Text>, AllocError>
    ensures { IfOk result (λ copy. copy ≡ name.now) }
{
    let copy = name.clone()?;
    Ok(copy)
}

pub(crate) fn copy_texts(texts: &List<Text>) -> Result<List<Text>, AllocError>
    ensures { IfOk result (λ copy. copy ≡ texts.now) }
{
    let copy = texts.clone()?;
    Ok(copy)
}

pub(crate) fn copy_query(query: &Query) -> Result<Query, AllocError>
    ensures { IfOk result (λ copy. copy ≡ query.now) }
{
    Ok(Query {
        types: copy_types(&query.types)?,
        not_types: copy_texts(&query.not_types)?,
        space: copy_space(&query.space)?,
        reference: copy_target(&query.reference)?,
        origin: copy_name(&query.origin)?,
        outdated: copy_versions(&query.outdated)?,
        after: copy_name(&query.after)?,
        sort: query.sort,
        descending: query.descending,
        skip: query.skip,
        take: query.take,
        filter: copy_filter(&query.filter)?,
    })
}

fn copy_types(types: &Option<List<TypeKind>>) -> Result<Option<List<TypeKind>>, AllocError>
    ensures { IfOk result (λ copy. copy ≡ types.now) }
{
    let copy = types.clone()?;
    Ok(copy)
}

fn copy_space(space: &Option<Space>) -> Result<Option<Space>, AllocError>
    ensures { IfOk result (λ copy. copy ≡ space.now) }
{
    let copy = space.clone()?;
    Ok(copy)
}

fn copy_target(target: &Option<Target>) -> Result<Option<Target>, AllocError>
    ensures { IfOk result (λ copy. copy ≡ target.now) }
{
    let copy = target.clone()?;
    Ok(copy)
}

fn copy_versions(versions: &List<TypeVer>) -> Result<List<TypeVer>, AllocError>
    ensures { IfOk result (λ copy. copy ≡ versions.now) }
{
    let copy = versions.clone()?;
    Ok(copy)
}

fn copy_filter(filter: &Option<Filter>) -> Result<Option<Filter>, AllocError>
    ensures { IfOk result (λ copy. copy ≡ filter.now) }
{
    let copy = filter.clone()?;
    Ok(copy)
}

pub(crate) fn copy_writes(writes: &List<Write>) -> Result<List<Write>, AllocError>
    ensures { IfOk result (λ copy. copy ≡ writes.now) }
{
    let copy = writes.clone()?;
    Ok(copy)
}

pub(crate) fn copy_actions(actions: &List<Action>) -> Result<List<Action>, AllocError>
    ensures { IfOk result (λ copy. copy ≡ actions.now) }
{
    let copy = actions.clone()?;
    Ok(copy)
}

pub(crate) fn copy_seen(indices: &List<IndexSeen>) -> Result<List<IndexSeen>, AllocError>
    ensures { IfOk result (λ copy. copy ≡ indices.now) }
{
    let copy = indices.clone()?;
    Ok(copy)
}

pub(crate) fn copy_pairs(pairs: &List<Pair>) -> Result<List<Pair>, AllocError>
    ensures { IfOk result (λ copy. copy ≡ pairs.now) }
{
    let copy = pairs.clone()?;
    Ok(copy)
}

pub(crate) fn copy_page(page: &Selected) -> Result<Selected, AllocError>
    ensures { IfOk result (λ copy. copy ≡ page.now) }
{
    let copy = page.clone()?;
    Ok(copy)
}

pub(crate) fn copy_found(rows: &List<Option<Row>>) -> Result<List<Option<Row>>, AllocError>
    ensures { IfOk result (λ copy. copy ≡ rows.now) }
{
    let copy = rows.clone()?;
    Ok(copy)
}

pub(crate) fn copy_items(items: &List<Item>) -> Result<List<Item>, AllocError>
    ensures { IfOk result (λ copy. copy ≡ items.now) }
{
    let copy = items.clone()?;
    Ok(copy)
}

pub(crate) fn copy_refusal(refusal: &Refusal) -> Result<Refusal, AllocError>
    ensures { IfOk result (λ copy. copy ≡ refusal.now) }
{
    let copy = refusal.clone()?;
    Ok(copy)
}
