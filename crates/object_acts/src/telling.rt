ghost use Rattle.std.specs.Prelude.{◌≡◌, IfOk};
ghost use Rattle.doc_table.specs.Tables.{item_of, write_of as model_write};
ghost use Rattle.base_model.specs.Keyed.{Text as Bytes};
ghost use Rattle.document_model.specs.Registries.{Registry as ModelRegistry};
ghost use Rattle.transform_ops.specs.declared.op.Op.{Op as ModelOp};
ghost use Rattle.call_model.specs.Acts.{success as success_of, dropped_one as dropped_answer};
ghost use Rattle.call_model.specs.Acts.Deed.{Make as Makes, Remake as Remakes, Drop as Takes};
ghost use Rattle.call_model.specs.Plans.{told as told_by, there as refusal_there, write_of as sent_by};
ghost use Rattle.call_model.specs.Steps.{gone as refusal_gone};
ghost use Rattle.call_words.specs.Told.{answer_with_token};
ghost use Rattle.object_acts.specs.Mapped.{act_of, deed_of};

use crate::acts::Act;
use crate::deeds::Deed;
use crate::sharing::spaces_of;
use call_words::{Answer, Refuse, shown};
use doc_table::{Item, Write};
use plain_data::{List, Text};
use saved_doc::{Row, SharedDoc};
use std::alloc::{AllocError, Global};
use type_registry::Registry;

/// The write that a deed on this raw id sends, with the number that was seen.
pub fn write_of(raw: &Text, deed: &Deed) -> Result<Write, AllocError>
    ensures { IfOk result (λ write. model_write write ≡ sent_by raw.now (deed_of deed.now)) }
{
    match deed {
        Deed::Make(doc) => Ok(Write::Create {
            raw: raw.clone()?,
            doc: doc.clone()?,
        }),
        Deed::Remake { seen, doc } => Ok(Write::Put {
            raw: raw.clone()?,
            doc: doc.clone()?,
            expect: Some(*seen),
        }),
        Deed::Drop { seen } => Ok(Write::Delete {
            raw: raw.clone()?,
            expect: Some(*seen),
        }),
    }
}

/// What a change answers by the item that its write gave: the object, the spaces of a share, or
/// `Deleted` where it was written. A create that found a row is refused as `Conflict`, and one with
/// overwrite as `Busy`. A change whose row has another number than it saw is refused as `Busy`; one
/// whose row is gone as `NotFound`, a create as `Busy`. Items that no such write gives are told as
/// `NotFound`.
pub fn told(
    alloc: Global,
    reg: &Registry,
    raw: &Text,
    act: &Act,
    deed: &Deed,
    item: Item,
) -> Result<Answer, AllocError>
    ensures { IfOk result (λ answer. answer ≡ answer_with_token (told_by reg.now raw.now (act_of act.now) (deed_of deed.now) (item_of item))) }
{
    match deed {
        Deed::Make(doc) => made(alloc, reg, raw, act, doc, item),
        Deed::Remake { seen, doc } => remade(alloc, reg, raw, act, *seen, doc, item),
        Deed::Drop { seen } => taken(alloc, act, *seen, item),
    }
}

fn made(
    alloc: Global,
    reg: &Registry,
    raw: &Text,
    act: &Act,
    doc: &SharedDoc,
    item: Item,
) -> Result<Answer, AllocError>
    ensures { IfOk result (λ answer. answer ≡ answer_with_token (told_by reg.now raw.now (act_of act.now) (Makes doc.now) (item_of item))) }
{
    match item {
        Item::Written(number) => success(alloc, reg, raw, act, number, doc),
        Item::Exists(number) => Ok(Answer::Refused(there(act, number))),
        Item::Conflict(_) | Item::NotFound => Ok(Answer::Refused(Refuse::NotFound)),
    }
}

fn remade(
    alloc: Global,
    reg: &Registry,
    raw: &Text,
    act: &Act,
    seen: u64,
    doc: &SharedDoc,
    item: Item,
) -> Result<Answer, AllocError>
    ensures { IfOk result (λ answer. answer ≡ answer_with_token (told_by reg.now raw.now (act_of act.now) (Remakes seen doc.now) (item_of item))) }
{
    match item {
        Item::Written(number) => success(alloc, reg, raw, act, number, doc),
        Item::Conflict(None) => Ok(Answer::Refused(gone(act, Some(seen)))),
        Item::Conflict(now) => Ok(Answer::Refused(Refuse::Busy {
            seen: Some(seen),
            now,
        })),
        Item::Exists(_) | Item::NotFound => Ok(Answer::Refused(Refuse::NotFound)),
    }
}

fn taken(alloc: Global, act: &Act, seen: u64, item: Item) -> Result<Answer, AllocError>
    ensures { (reg : ModelRegistry ModelOp) (raw : Bytes) → IfOk result (λ answer. answer ≡ answer_with_token (told_by reg raw (act_of act.now) (Takes seen) (item_of item))) }
{
    match item {
        Item::Written(_) => Ok(gone_answer(alloc, act)),
        Item::Conflict(now) => Ok(Answer::Refused(Refuse::Busy {
            seen: Some(seen),
            now,
        })),
        Item::Exists(_) | Item::NotFound => Ok(Answer::Refused(Refuse::NotFound)),
    }
}

/// The answer to a write that was done.
fn success(
    alloc: Global,
    reg: &Registry,
    raw: &Text,
    act: &Act,
    number: u64,
    doc: &SharedDoc,
) -> Result<Answer, AllocError>
    ensures { IfOk result (λ answer. answer ≡ answer_with_token (success_of reg.now raw.now (act_of act.now) number doc.now)) }
{
    match act {
        Act::Share { .. } => {
            let spaces = spaces_of(alloc, &doc.get().namespaces)?;
            Ok(Answer::Spaces(spaces))
        }
        _ => {
            let row = Row {
                raw: raw.clone()?,
                seq: number,
                doc: doc.clone()?,
            };
            Ok(Answer::Object(shown(alloc, reg, &row)?))
        }
    }
}

/// The answer to a delete, and to a share that left no space.
fn gone_answer(alloc: Global, act: &Act) -> Answer
    ensures { result ≡ answer_with_token (dropped_answer (act_of act.now)) }
{
    match act {
        Act::Share { .. } => Answer::Spaces(List::new(alloc)),
        _ => Answer::Deleted,
    }
}

/// The refusal where the row is gone.
fn gone(act: &Act, seen: Option<u64>) -> Refuse
    ensures { result ≡ refusal_gone (act_of act.now) seen }
{
    match act {
        Act::Create { .. } => Refuse::Busy { seen, now: None },
        _ => Refuse::NotFound,
    }
}

/// The refusal where a row is there that wasn't seen.
fn there(act: &Act, number: u64) -> Refuse
    ensures { result ≡ refusal_there (act_of act.now) number }
{
    match act {
        Act::Create {
            overwrite: false,
            ..
        } => Refuse::Conflict,
        _ => Refuse::Busy {
            seen: None,
            now: Some(number),
        },
    }
}
