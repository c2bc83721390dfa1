//! The requests of plans, each of the alias of the registry's version.
ghost use Rattle.std.specs.Prelude.{◌≡◌, IfOk, map};
ghost use Rattle.race_model.specs.Stores.Request.{Get, Search, Bulk};
ghost use Rattle.raw_id.specs.IndexNames.{version_alias};
ghost use Rattle.doc_query.specs.Mapped.{query_of};
ghost use Rattle.doc_table.specs.Tables.{write_of};
ghost use Rattle.store_words.specs.Words.{request_of};

use doc_table::Write;
use plain_data::{List, Text};
use raw_id::version_alias_of;
use std::alloc::{AllocError, Global};
use store_words::{Query, Request};
use type_registry::Registry;

/// A read of the rows of these raw ids.
pub(crate) fn read_of(
    alloc: Global,
    reg: &Registry,
    raws: List<Text>,
) -> Result<Request, AllocError>
    ensures { IfOk result (λ ask. request_of ask ≡ Get (version_alias reg.now.version) raws) }
{
    let index = version_alias_of(alloc, reg.version())?;
    Ok(Request::Get { index, raws })
}

/// A search by this query.
pub(crate) fn search_of(alloc: Global, reg: &Registry, query: Query) -> Result<Request, AllocError>
    ensures { IfOk result (λ ask. request_of ask ≡ Search (version_alias reg.now.version) (query_of query)) }
{
    let index = version_alias_of(alloc, reg.version())?;
    Ok(Request::Search { index, query })
}

/// A bulk of these writes.
pub(crate) fn bulk_of(
    alloc: Global,
    reg: &Registry,
    items: List<Write>,
) -> Result<Request, AllocError>
    ensures { IfOk result (λ ask. request_of ask ≡ Bulk (version_alias reg.now.version) (map write_of items)) }
{
    let index = version_alias_of(alloc, reg.version())?;
    Ok(Request::Bulk { index, items })
}
