//! The plan of a find.
ghost use Rattle.std.specs.Prelude.{◌≡◌, IfOk};
ghost use Rattle.race_model.specs.Stores.Request.{Search};
ghost use Rattle.raw_id.specs.IndexNames.{version_alias};
ghost use Rattle.doc_query.specs.Mapped.{query_of};
ghost use Rattle.call_model.specs.Calls.Call.{Finding};
ghost use Rattle.call_words.specs.Mapped.{find_of};
ghost use Rattle.object_ops.specs.Mapped.{progress_of};
ghost use Rattle.object_ops.specs.Stages.{asking, begun};
ghost use Rattle.object_ops.specs.Stages.Stage.{Searches};

use crate::asking::search_of;
use crate::plan::Plan;
use crate::stage::Stage;
use call_words::{Asked, Find, query_of_find};
use plain_data::Text;
use std::alloc::{AllocError, Global};
use store_words::Query;
use type_registry::Registry;

/// The plan of a find.
pub(crate) fn find(
    alloc: Global,
    reg: &Registry,
    space: &Text,
    find: &Find<'_>,
) -> Result<Plan, AllocError>
    ensures { IfOk result (λ plan. progress_of plan ≡ begun reg.now (Finding space.now (find_of find.now))) }
{
    match query_of_find(alloc, reg, space.as_str(), find)? {
        Asked::Query(query) => search(alloc, reg, find.page, find.per_page, query),
        Asked::Refused(refuse) => Ok(Plan::refused(refuse)),
    }
}

/// A search for this page.
fn search(
    alloc: Global,
    reg: &Registry,
    page: u64,
    per_page: u64,
    query: Query,
) -> Result<Plan, AllocError>
    ensures { IfOk result (λ plan. progress_of plan ≡ asking (Search (version_alias reg.now.version) (query_of query)) (Searches page per_page)) }
{
    let request = search_of(alloc, reg, query)?;
    Ok(Plan::asking(request, Stage::Searching { page, per_page }))
}
