ghost use Rattle.std.specs.Prelude.{◌≡◌, IfOk};
ghost use Rattle.call_words.specs.Mapped.{call_of};
ghost use Rattle.object_ops.specs.Mapped.{progress_of};
ghost use Rattle.object_ops.specs.Stages.{begun};

use crate::changing::{bulk_create, create, delete, share, update};
use crate::following::resolve;
use crate::looking::{bulk_get, get};
use crate::plan::Plan;
use crate::searching::find;
use call_words::{Call, Find};
use std::alloc::{AllocError, Global};
use type_registry::Registry;

/// The plan of a call before its first request.
pub(crate) fn start(alloc: Global, reg: &Registry, call: &Call) -> Result<Plan, AllocError>
    ensures { IfOk result (λ plan. progress_of plan ≡ begun reg.now (call_of call.now)) }
{
    match call {
        Call::Create {
            space,
            object,
            overwrite,
            at,
        } => create(alloc, reg, space, object, *overwrite, at),
        Call::BulkCreate {
            space,
            objects,
            overwrite,
            at,
        } => bulk_create(alloc, reg, space, objects, *overwrite, at),
        Call::Get { space, target } => get(alloc, reg, space, target),
        Call::Resolve { space, target } => resolve(alloc, reg, space, target),
        Call::BulkGet { space, objects } => bulk_get(alloc, reg, space, objects),
        Call::Update { space, change, at } => update(alloc, reg, space, change, at),
        Call::Delete {
            space,
            target,
            force,
        } => delete(alloc, reg, space, target, *force),
        Call::Find {
            space,
            types,
            page,
            per_page,
            sort,
            descending,
            reference,
            origin,
            filter,
        } => {
            let asked = Find {
                types,
                page: *page,
                per_page: *per_page,
                sort: *sort,
                descending: *descending,
                reference,
                origin,
                filter,
            };
            find(alloc, reg, space, &asked)
        }
        Call::Share {
            space,
            target,
            add,
            remove,
            at,
        } => share(alloc, reg, space, target, add, remove, at),
    }
}
