ghost use Rattle.std.specs.Prelude.{◌≡◌, ◌&&◌, ◌||◌, not, option_map};
ghost use Rattle.std.specs.List.{list_any};
ghost use Rattle.std.specs.Str.{bytes_eq};
ghost use Rattle.base_model.specs.Keyed.{same, text_lt};
ghost use Rattle.document_model.specs.Documents.{below, lists as is_listed, id_of as id_in, ver_lt};
ghost use Rattle.query_model.specs.Queries.{selects, if_given, seen_in, of_types, refers as is_referred, origin_is, outdated_for, is_outdated as has_old_stamp};
ghost use Rattle.space_scope.specs.Spaces.{space_text};
ghost use Rattle.doc_query.specs.Mapped.{query_of, holds_of};

use crate::ids::id_of;
use crate::query::Query;
use kql_filter::{Filter, holds};
use plain_data::{List, Text};
use query_model::{Target, TypeKind, TypeVer};
use saved_doc::{Doc, Ref, Row, visible};
use space_scope::{Kind, Space};
use text_order::is_below;
use version_token::Ver;

/// Whether the row has all that the query asks of a row. Takes no memory.
pub fn fits(row: &Row, query: &Query) -> bool
    ensures { result ≡ selects holds_of (query_of query.now) row.now.raw row.now.doc }
{
    is_selected(&row.raw, row.doc.get(), query)
}

fn is_selected(raw: &Text, doc: &Doc, query: &Query) -> bool
    ensures { result ≡ selects holds_of (query_of query.now) raw.now doc.now }
{
    has_type(doc, &query.types, &query.space)
        && is_of_no_type(doc, &query.not_types)
        && has_reference(doc, &query.reference)
        && has_origin(raw, doc, &query.origin)
        && is_outdated(doc, &query.outdated)
        && comes_after(raw, &query.after)
        && passes(doc, &query.filter)
}

fn has_type(doc: &Doc, types: &Option<List<TypeKind>>, space: &Option<Space>) -> bool
    ensures { result ≡ if_given types.now (of_types (option_map space_text space.now) doc.now) }
{
    match types {
        Some(types) => is_of_types(doc, types, space),
        None => true,
    }
}

fn is_of_types(doc: &Doc, types: &List<TypeKind>, space: &Option<Space>) -> bool
    ensures { result ≡ of_types (option_map space_text space.now) doc.now types.now }
{
    has_entry(doc, types, space)
}

fn has_entry(doc: &Doc, types: &List<TypeKind>, space: &Option<Space>) -> bool
    ensures { result ≡ list_any (λ t. bytes_eq t.name doc.now.type_name && seen_in (option_map space_text space.now) t.kind doc.now) types.now }
{
    types.as_slice().iter().any(|entry| entry.name.as_str() == doc.type_name()
        && is_seen(doc, entry.kind, space))
}

fn is_seen(doc: &Doc, kind: Kind, space: &Option<Space>) -> bool
    ensures { result ≡ seen_in (option_map space_text space.now) kind doc.now }
{
    match space {
        Some(space) => visible(kind, doc, space),
        None => true,
    }
}

fn is_of_no_type(doc: &Doc, types: &List<Text>) -> bool
    ensures { result ≡ not (is_listed doc.now.type_name types.now) }
{
    !has_text(types, doc.type_name())
}

fn has_text(texts: &List<Text>, text: &str) -> bool
    ensures { result ≡ list_any (λ other. bytes_eq text.now other) texts.now }
{
    texts.as_slice().iter().any(|other| text == other.as_str())
}

fn has_reference(doc: &Doc, target: &Option<Target>) -> bool
    ensures { result ≡ if_given target.now (is_referred doc.now.references) }
{
    match target {
        Some(target) => refers(&doc.references, target),
        None => true,
    }
}

fn refers(references: &List<Ref>, target: &Target) -> bool
    ensures { result ≡ is_referred references.now target.now }
{
    has_reference_to(references, target)
}

fn has_reference_to(references: &List<Ref>, target: &Target) -> bool
    ensures { result ≡ list_any (λ r. bytes_eq r.type_name target.now.type_name && bytes_eq r.id target.now.id) references.now }
{
    references.as_slice().iter().any(|r| r.type_name.as_str() == target.type_name.as_str()
        && r.id.as_str() == target.id.as_str())
}

#[tactic(auto, unfolding(base_model::specs::Keyed::same))]
fn has_origin(raw: &Text, doc: &Doc, origin: &Option<Text>) -> bool
    ensures { result ≡ if_given origin.now (λ o. origin_is o doc.now.origin || same o (id_in raw.now doc.now)) }
{
    match origin {
        Some(origin) => is_origin(doc, origin.as_str())
            || origin.as_str() == id_of(raw.as_str(), doc),
        None => true,
    }
}

#[tactic(auto, unfolding(base_model::specs::Keyed::same))]
fn is_origin(doc: &Doc, id: &str) -> bool
    ensures { result ≡ origin_is id.now doc.now.origin }
{
    match &doc.origin {
        Some(origin) => id == origin.as_str(),
        None => false,
    }
}

fn is_outdated(doc: &Doc, types: &List<TypeVer>) -> bool
    ensures { result ≡ outdated_for doc.now types.now }
{
    types.is_empty() || has_older_stamp(doc, types)
}

fn has_older_stamp(doc: &Doc, types: &List<TypeVer>) -> bool
    ensures { result ≡ list_any (λ t. bytes_eq t.name doc.now.type_name && below doc.now.stamp t.latest) types.now }
{
    types.as_slice().iter().any(|entry| entry.name.as_str() == doc.type_name()
        && is_older(&doc.stamp, entry.latest))
}

fn is_older(stamp: &Option<Ver>, latest: Ver) -> bool
    ensures { result ≡ below stamp.now latest }
{
    match stamp {
        Some(stamp) => precedes(*stamp, latest),
        None => true,
    }
}

fn precedes(first: Ver, second: Ver) -> bool
    ensures { result ≡ ver_lt first second }
{
    first < second
}

fn comes_after(raw: &Text, after: &Option<Text>) -> bool
    ensures { result ≡ if_given after.now (λ a. text_lt a raw.now) }
{
    match after {
        Some(after) => is_below(after, raw),
        None => true,
    }
}

fn passes(doc: &Doc, filter: &Option<Filter>) -> bool
    ensures { result ≡ if_given filter.now (λ f. holds_of f doc.now.type_name doc.now.attributes) }
{
    match filter {
        Some(filter) => holds(filter, doc.type_name(), doc.attributes()),
        None => true,
    }
}
