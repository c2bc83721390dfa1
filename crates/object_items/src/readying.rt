ghost use Rattle.std.specs.Prelude.{◌≡◌, [], ◌∷◌, ◌++◌, IfOk, None, map, option_map};
ghost use Rattle.std.specs.Option.{option_copied};
ghost use Rattle.space_scope.specs.Spaces.{space_text};
ghost use Rattle.doc_query.specs.Mapped.{cell_of};
ghost use Rattle.doc_table.specs.Tables.{cell_of as cell_in, write_of as write_sent};
ghost use Rattle.call_model.specs.Acts.{own_words, judge as judge_by};
ghost use Rattle.call_model.specs.Plans.{readied as readied_by, ready_over, writes_of as writes_to_send};
ghost use Rattle.call_words.specs.Product.{product_words};
ghost use Rattle.object_acts.specs.Mapped.{act_of, deed_of};
ghost use Rattle.object_items.specs.Mapped.{turn_of, ready_of};
ghost use Rattle.object_items.specs.Judging.{AreJudgeable, first_in, rows_behind, ready_by};

use crate::copying::copied_act;
use crate::placing::Turn;
use call_words::Refuse;
use doc_table::Write;
use object_acts::{Act, Deed, Judged, judge, write_of};
use plain_data::{List, Text};
use saved_doc::Row;
use space_scope::Space;
use std::alloc::{AllocError, Global};
use type_registry::Registry;

/// An item of a call that writes, once its row was read.
#[derive(Debug, Drop)]
pub enum Ready {
    /// It is refused, and sends no write.
    Settled(Refuse),
    /// It sends the write of its deed.
    Sends { raw: Text, act: Act, deed: Deed },
}

/// The items, each judged by the row that was found for it: the rows are those of the items that are
/// left to judge, in their order, and an item without one is judged by no row.
#[tactic(auto, unfolding(call_model::specs::Plans::readied))]
pub fn readied(
    alloc: Global,
    reg: &Registry,
    space: &Space,
    turns: &List<Turn>,
    rows: &List<Option<Row>>,
) -> Result<List<Ready>, AllocError>
    requires { AreJudgeable reg.now (map turn_of turns.now) }
    ensures { IfOk result (λ items. map ready_of items ≡ readied_by product_words reg.now (space_text space.now) (map turn_of turns.now) (map (option_map cell_of) rows.now)) }
{
    let mut items = List::new(alloc);
    let mut rest = rows.as_slice();
    for turn in turns.as_slice() {
        items.push(ready_item(alloc, reg, space, turn, first_row(rest))?)?;
        rest = rows_after(turn, rest);
    }
    Ok(items)
}

/// The first of the rows, where there is one.
fn first_row(rows: &[Option<Row>]) -> Option<&Row>
    ensures { option_copied result ≡ first_in rows.now }
{
    match rows.first() {
        Some(Some(row)) => Some(row),
        _ => None,
    }
}

/// The rows that are left after the item's own.
fn rows_after<'a>(turn: &Turn, rows: &'a [Option<Row>]) -> &'a [Option<Row>]
    ensures { result.now ≡ rows_behind (turn_of turn.now) rows.now }
{
    match turn {
        Turn::Denied(_) => rows,
        Turn::Goes { .. } => match rows.split_first() {
            Some((_, rest)) => rest,
            None => rows,
        },
    }
}

/// The item, judged by this row where it is left to judge.
fn ready_item(
    alloc: Global,
    reg: &Registry,
    space: &Space,
    turn: &Turn,
    row: Option<&Row>,
) -> Result<Ready, AllocError>
    requires { AreJudgeable reg.now (turn_of turn.now ∷ []) }
    ensures { IfOk result (λ item. ready_of item ≡ ready_by reg.now (space_text space.now) (turn_of turn.now) (option_map cell_in (option_copied row.entry))) }
{
    match turn {
        Turn::Denied(refusal) => Ok(Ready::Settled(*refusal)),
        Turn::Goes { raw, act } => judged(alloc, reg, space, raw, act, row),
    }
}

/// An item that is left to judge, judged by this row.
fn judged(
    alloc: Global,
    reg: &Registry,
    space: &Space,
    raw: &Text,
    act: &Act,
    row: Option<&Row>,
) -> Result<Ready, AllocError>
    requires { own_words product_words reg.now (act_of act.now) ≡ None }
    ensures { IfOk result (λ item. ready_of item ≡ ready_over raw.now (act_of act.now) (judge_by product_words reg.now (space_text space.now) (act_of act.now) (option_map cell_in (option_copied row.entry)))) }
{
    match judge(alloc, reg, space, act, row)? {
        Judged::Denied(refusal) => Ok(Ready::Settled(refusal)),
        Judged::Does(deed) => sends(raw, act, deed),
    }
}

/// An item that sends the write of its deed.
fn sends(raw: &Text, act: &Act, deed: Deed) -> Result<Ready, AllocError>
    ensures { IfOk result (λ item. ready_of item ≡ ready_over raw.now (act_of act.now) (deed_of deed)) }
{
    let raw = raw.clone()?;
    let act = copied_act(act)?;
    Ok(Ready::Sends { raw, act, deed })
}

/// The writes of the items that send one, in their order.
pub fn writes_of(alloc: Global, items: &List<Ready>) -> Result<List<Write>, AllocError>
    ensures { IfOk result (λ writes. map write_sent writes ≡ writes_to_send (map ready_of items.now)) }
{
    let mut writes = List::new(alloc);
    for item in items.as_slice() {
        add_write(&mut writes, item)?;
    }
    Ok(writes)
}

/// Adds the write of an item that sends one.
fn add_write(writes: &mut List<Write>, item: &Ready) -> Result<(), AllocError>
    ensures { IfOk result (λ _. map write_sent writes.new ≡ map write_sent writes.old ++ writes_to_send (ready_of item.now ∷ [])) }
{
    match item {
        Ready::Settled(_) => Ok(()),
        Ready::Sends { raw, deed, .. } => writes.push(write_of(raw, deed)?),
    }
}
