//! Rows as the objects that they show.
ghost use Rattle.std.specs.Prelude.{◌≡◌, IfOk};
ghost use Rattle.std.specs.Option.{option_copied};
ghost use Rattle.space_scope.specs.Spaces.{space_text};
ghost use Rattle.call_model.specs.Acts.{raw_of as raw_in, shown as shown_in};
ghost use Rattle.call_model.specs.Steps.{seen_over};
ghost use Rattle.call_words.specs.Told.{shown_with_token};
ghost use Rattle.object_answers.specs.Mapped.{row_of};

use call_words::{Shown, Target, is_seen, raw_of, shown};
use plain_data::Text;
use saved_doc::Row;
use space_scope::Space;
use std::alloc::{AllocError, Global};
use type_registry::Registry;

/// The row, where it has the target's type and is visible. Takes no memory.
pub(crate) fn seen_row<'a>(
    reg: &Registry,
    space: &Space,
    target: &Target,
    row: &'a Option<Row>,
) -> Option<&'a Row>
    ensures { row_of (option_copied result) ≡ seen_over reg.now (space_text space.now) target.now (row_of row.now) }
{
    match row {
        Some(row) if is_seen(reg, space, target.type_name.as_str(), row.doc.get()) => Some(row),
        _ => None,
    }
}

/// A row as an object, under the raw id that was asked for, whichever the reply names.
pub(crate) fn shown_at(
    alloc: Global,
    reg: &Registry,
    raw: Text,
    row: &Row,
) -> Result<Shown, AllocError>
    ensures { IfOk result (λ s. s ≡ shown_with_token (shown_in reg.now raw row.now.seq row.now.doc)) }
{
    let seq = row.seq;
    let doc = row.doc.clone()?;
    shown(alloc, reg, &Row { raw, seq, doc })
}

/// The raw id of an object.
pub(crate) fn raw_at(
    alloc: Global,
    reg: &Registry,
    space: &Space,
    target: &Target,
) -> Result<Text, AllocError>
    ensures { IfOk result (λ raw. raw ≡ raw_in reg.now (space_text space.now) target.now) }
{
    raw_of(
        alloc,
        reg,
        space,
        target.type_name.as_str(),
        target.id.as_str(),
    )
}
