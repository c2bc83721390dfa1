ghost use Rattle.std.specs.Prelude.{◌≡◌, ◌==◌, ◌||◌, ◌-◌, ◌*◌, nat_lt, min, map, true, false, Some, None, IfOk, IfErr};
ghost use Rattle.std.specs.List.{list_any};
ghost use Rattle.space_scope.specs.Spaces.{space_text};
ghost use Rattle.kql_filter.specs.declared.tree.FilterError.TheVariants as fault;
ghost use Rattle.doc_query.specs.Mapped.{query_of as query_in};
ghost use Rattle.call_model.specs.Acts.{is_unknown as is_unknown_in, kind_of as kind_in};
ghost use Rattle.call_model.specs.Steps.{find_words, query_of as query_for, any_unknown, with_kinds as kinds_with, bad_filter, filter_of};
ghost use Rattle.call_words.specs.Mapped.{find_of};
ghost use Rattle.call_words.specs.Product.{product_words, filter_in};
ghost use Rattle.call_words.specs.Asking.{search_in, asked_over};

use crate::calls::Find;
use crate::copying::{copied_target, copied_text};
use crate::refusals::is_unknown;
use crate::spaces::read_space;
use crate::visibility::kind_of;
use call_model::Refuse;
use doc_query::Query;
use kql_filter::{Filter, FilterError, one_tree, read};
use plain_data::{List, Text};
use query_model::TypeKind;
use space_scope::Space;
use std::alloc::{AllocError, Global};
use type_registry::Registry;

/// What a find asks of the store, or why its words refuse it.
#[derive(Debug, Drop)]
pub enum Asked {
    Query(Query),
    Refused(Refuse),
}

/// The query that a find in this space stands for: of its types with their kinds, in the space,
/// after the pages before its own.
///
/// It is refused by the first of these that applies: `BadSpace`, where the space is none;
/// `UnsupportedType`, where one of its types isn't known or is that of alias documents; `BadPage`,
/// where the page is 0 or has more than 10,000 objects; `BadFilter`, where the filter isn't of the
/// form of filters.
pub fn query_of_find(
    alloc: Global,
    reg: &Registry,
    space: &str,
    find: &Find<'_>,
) -> Result<Asked, AllocError>
    ensures { IfOk result (λ asked. search_in asked ≡ asked_over (find_words product_words reg.now space.now (find_of find.now)) (query_for product_words reg.now space.now (find_of find.now))) }
{
    let Some(space) = read_space(alloc, space)? else {
        return Ok(Asked::Refused(Refuse::BadSpace));
    };
    if is_any_unknown(reg, find.types) {
        return Ok(Asked::Refused(Refuse::UnsupportedType));
    }
    if is_bad_page(find.page, find.per_page) {
        return Ok(Asked::Refused(Refuse::BadPage));
    }
    let filter = match read_filter(alloc, find.filter) {
        Ok(filter) => filter,
        Err(FilterError::BadFilter) => return Ok(Asked::Refused(Refuse::BadFilter)),
        Err(FilterError::Memory) => return Err(AllocError),
    };
    let query = query_of(alloc, reg, space, find, filter)?;
    Ok(Asked::Query(query))
}

fn is_any_unknown(reg: &Registry, types: &List<Text>) -> bool
    ensures { result ≡ any_unknown reg.now types.now }
{
    has_unknown(reg, types)
}

fn has_unknown(reg: &Registry, types: &List<Text>) -> bool
    ensures { result ≡ list_any (λ name. is_unknown_in reg.now name) types.now }
{
    types.as_slice().iter().any(|name| is_unknown(reg, name))
}

fn is_bad_page(page: u64, per_page: u64) -> bool
    ensures { result ≡ (page == 0 || nat_lt 10000 per_page) }
{
    page == 0 || per_page > 10_000
}

/// The filter that is given, if any. `BadFilter` where the text isn't of the form of filters.
fn read_filter(alloc: Global, filter: &Option<Text>) -> Result<Option<Filter>, FilterError>
    ensures value { IfOk result (λ read. read ≡ filter_of product_words filter.now) }
    ensures good { IfOk result (λ read. bad_filter product_words filter.now ≡ false) }
    ensures bad { IfErr result (λ e. e ≡ fault.BadFilter → bad_filter product_words filter.now ≡ true) }
{
    match filter {
        Some(text) => {
            let filter = read_text(alloc, text)?;
            Ok(Some(filter))
        }
        None => Ok(None),
    }
}

/// The filter that a text is. `BadFilter` where it isn't of the form of filters.
fn read_text(alloc: Global, text: &Text) -> Result<Filter, FilterError>
    ensures value { IfOk result (λ read. Some read ≡ filter_in text.now) }
    ensures bad { IfErr result (λ e. e ≡ fault.BadFilter → filter_in text.now ≡ None) }
{
    one_tree();
    match read(alloc, text.as_str()) {
        Ok(filter) => Ok(filter),
        Err(error) => Err(error),
    }
}

/// The query of a find whose page isn't 0.
fn query_of(
    alloc: Global,
    reg: &Registry,
    space: Space,
    find: &Find<'_>,
    filter: Option<Filter>,
) -> Result<Query, AllocError>
    requires { filter ≡ filter_of product_words find.now.filter.now }
    ensures { IfOk result (λ q. query_in q ≡ query_for product_words reg.now (space_text space) (find_of find.now)) }
{
    Ok(Query {
        types: Some(with_kinds(alloc, reg, find.types)?),
        not_types: List::new(alloc),
        space: Some(space),
        reference: copied_target(find.reference)?,
        origin: copied_text(find.origin)?,
        outdated: List::new(alloc),
        after: None,
        sort: find.sort,
        descending: find.descending,
        skip: skipped(find.page, find.per_page),
        take: Some(find.per_page),
        filter,
    })
}

/// The number of objects on the pages before this one, at most 2^64 - 1.
fn skipped(page: u64, per_page: u64) -> u64
    ensures { result ≡ min ((page - 1) * per_page) 18446744073709551615 }
{
    page.saturating_sub(1).saturating_mul(per_page)
}

fn with_kinds(
    alloc: Global,
    reg: &Registry,
    types: &List<Text>,
) -> Result<List<TypeKind>, AllocError>
    ensures { IfOk result (λ all. all ≡ kinds_with reg.now types.now) }
{
    let all = kinds_of(alloc, reg, types)?;
    Ok(all)
}

fn kinds_of(alloc: Global, reg: &Registry, types: &List<Text>) -> Result<List<TypeKind>, AllocError>
    ensures { IfOk result (λ all. all ≡ map (λ name. record { name = name; kind = kind_in reg.now name }) types.now) }
{
    let mut all = List::new(alloc);
    for name in types.as_slice() {
        let kind = kind_of(reg, name.as_str());
        let name = name.clone()?;
        all.push(TypeKind { name, kind })?;
    }
    Ok(all)
}
