//! The call find.
ghost use Rattle.std.specs.Prelude.{◌≡◌, false, codes, IfOk};
ghost use Rattle.query_model.specs.declared.parts.Sort.TheVariants.{Raw};
ghost use Rattle.call_words.specs.Limits.{HasFewObjects};
ghost use Rattle.call_lines.specs.Reading.{Gives, defaulted, has_other};
ghost use Rattle.call_lines.specs.Calls.{sort_in, order_in, find_keys, find_in};

use crate::error::LineError;
use crate::members::{has_other_than, needed_texts, number_or, optional_text};
use crate::targets::reference;
use call_words::{Call, Sort};
use plain_data::Text;
use so_js::{Js, member};
use std::alloc::Global;
use wire_io::InputKind;

fn read_sort(js: &Js) -> Result<Sort, LineError>
    ensures { Gives result (sort_in js.now) }
{
    let Js::Str(word) = js else {
        return Err(LineError::Refused(InputKind::WrongKind));
    };
    match word.as_str() {
        "raw" => Ok(Sort::Raw),
        "updated_at" => Ok(Sort::UpdatedAt),
        _ => Err(LineError::Refused(InputKind::WrongKind)),
    }
}

/// Whether the order is the descending one.
fn read_order(js: &Js) -> Result<bool, LineError>
    ensures { Gives result (order_in js.now) }
{
    let Js::Str(word) = js else {
        return Err(LineError::Refused(InputKind::WrongKind));
    };
    match word.as_str() {
        "asc" => Ok(false),
        "desc" => Ok(true),
        _ => Err(LineError::Refused(InputKind::WrongKind)),
    }
}

/// What `sort` names, the raw id where it is missing.
fn sort(js: &Js) -> Result<Sort, LineError>
    ensures { Gives result (defaulted Raw sort_in (codes "sort") js.now) }
{
    match member(js, "sort") {
        Some(js) => read_sort(js),
        None => Ok(Sort::Raw),
    }
}

/// Whether `order` names the descending order, `false` where it is missing.
fn descending(js: &Js) -> Result<bool, LineError>
    ensures { Gives result (defaulted false order_in (codes "order") js.now) }
{
    match member(js, "order") {
        Some(js) => read_order(js),
        None => Ok(false),
    }
}

/// Whether the object has a member that a find has not.
fn has_other_than_find(js: &Js) -> bool
    ensures { result ≡ has_other find_keys js.now }
{
    has_other_than(
        js,
        &[
            "do",
            "space",
            "types",
            "page",
            "perPage",
            "sort",
            "order",
            "reference",
            "origin",
            "filter",
        ],
    )
}

/// A find in this space.
pub fn read_find(alloc: Global, space: Text, js: &Js) -> Result<Call, LineError>
    ensures exact { Gives result (find_in space js.now) }
    ensures few { IfOk result (λ call. HasFewObjects call) }
{
    let types = needed_texts(alloc, js, "types")?;
    let page = number_or(js, "page", 1)?;
    let per_page = number_or(js, "perPage", 20)?;
    let sort = sort(js)?;
    let descending = descending(js)?;
    let reference = reference(alloc, js)?;
    let origin = optional_text(alloc, js, "origin")?;
    let filter = optional_text(alloc, js, "filter")?;
    if has_other_than_find(js) {
        return Err(LineError::Refused(InputKind::UnknownField));
    }
    Ok(Call::Find {
        space,
        types,
        page,
        per_page,
        sort,
        descending,
        reference,
        origin,
        filter,
    })
}
