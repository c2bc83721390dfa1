ghost use Rattle.std.specs.Prelude.{◌≡◌, ◌+◌, ◌≤◌, ◌^◌, map, length, IfOk, OnOk, OnErr};
ghost use Rattle.race_model.specs.Stores.{write_all, items_of};
ghost use Rattle.doc_table.specs.Tables.{item_of, write_of};

use doc_table::{DocTable, Item, Write};
use plain_data::List;
use std::alloc::{AllocError, Global};

/// Does the writes in order on the table, and gives the result of each. One write is done in place,
/// several on a copy that takes the table's place, so that after want of memory the table is as it
/// was.
pub fn write_in(
    alloc: Global,
    table: &mut DocTable,
    writes: List<Write>,
) -> Result<List<Item>, AllocError>
    requires room { table.old.next + length writes ≤ 2 ^ 63 }
    ensures table { OnOk result (table.new ≡ write_all table.old (map write_of writes)) }
    ensures items { IfOk result (λ items. map item_of items ≡ items_of table.old (map write_of writes)) }
    ensures err { OnErr result (table.new ≡ table.old) }
{
    if writes.len() == 1 {
        return write_one(alloc, table, writes);
    }
    let (copy, items) = written(alloc, table, writes)?;
    *table = copy;
    Ok(items)
}

/// Does the one write on the table. The place of its result is taken before.
#[tactic(auto, unfolding(race_model::specs::Stores::write_all, race_model::specs::Stores::items_of))]
fn write_one(
    alloc: Global,
    table: &mut DocTable,
    writes: List<Write>,
) -> Result<List<Item>, AllocError>
    requires one { length writes ≡ 1 }
    requires room { table.old.next + length writes ≤ 2 ^ 63 }
    ensures table { OnOk result (table.new ≡ write_all table.old (map write_of writes)) }
    ensures items { IfOk result (λ items. map item_of items ≡ items_of table.old (map write_of writes)) }
    ensures err { OnErr result (table.new ≡ table.old) }
{
    let mut items = Vec::new(alloc);
    items.push(Item::NotFound)?;
    let mut writes = writes.into_vec();
    if let Some(write) = writes.pop() {
        let item = table.apply(write)?;
        items[0] = item;
    }
    Ok(List::from_vec(items))
}

/// A copy of the table on which the writes were done in order, and the result of each.
#[tactic(auto, unfolding(race_model::specs::Stores::write_all, race_model::specs::Stores::items_of))]
fn written(
    alloc: Global,
    table: &DocTable,
    writes: List<Write>,
) -> Result<(DocTable, List<Item>), AllocError>
    requires room { table.now.next + length writes ≤ 2 ^ 63 }
    ensures table { IfOk result (λ done. done.0 ≡ write_all table.now (map write_of writes)) }
    ensures items { IfOk result (λ done. map item_of done.1 ≡ items_of table.now (map write_of writes)) }
{
    let mut copy = table.snapshot()?;
    let mut items = List::new(alloc);
    for write in writes.into_vec() {
        items.push(copy.apply(write)?)?;
    }
    Ok((copy, items))
}
