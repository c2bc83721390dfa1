ghost use Rattle.std.specs.Prelude.{◌≡◌, ◌+◌, ◌<◌, ◌≤◌, ◌^◌, map, length, IfOk, OnErr, IfSome};
ghost use Rattle.base_model.specs.Keyed.{at};
ghost use Rattle.race_model.specs.Stores.{create_over, clone_over, open_over, bulk_over, meant as meant_by};
ghost use Rattle.alias_table.specs.Plans.{keyed_of};
ghost use Rattle.doc_table.specs.Tables.{write_of};
ghost use Rattle.store_words.specs.Words.{reply_of};
ghost use Rattle.store_core.specs.Standing.{AreAliases};
ghost use Rattle.store_core.specs.Engines.{store_of, answer_of, is_taken_by};

use crate::answers::reply;
use crate::copies::writes_copy;
use crate::naming::{is_index, meant, named_by};
use alias_table::Pair;
use index_store::IndexStore;
use plain_data::{List, Text};
use std::alloc::AllocError;
use store_words::{Refusal, Reply, Write};

/// Adds an empty index, whose name neither an index nor an alias has.
pub fn create(
    indices: &mut IndexStore,
    aliases: &List<Pair>,
    name: &Text,
    source: &Option<Text>,
) -> Result<Reply, AllocError>
    ensures ok { IfOk result (λ reply. answer_of indices.new aliases.now (reply_of reply) ≡ create_over (at name.now indices.old.indices) (at name.now (keyed_of aliases.now)) (store_of indices.old aliases.now) name.now source.now) }
    ensures err { OnErr result (indices.new ≡ indices.old) }
{
    if is_taken(indices, aliases, name) {
        return Ok(Reply::Refused(Refusal::NameTaken(name.clone()?)));
    }
    match indices.create(name.clone()?, source.clone()?) {
        Ok(served) => Ok(reply(served)),
        Err(refused) => Err(refused),
    }
}

/// Adds a copy of a blocked index, under a name that neither an index nor an alias has.
pub fn copy_index(
    indices: &mut IndexStore,
    aliases: &List<Pair>,
    from: &Text,
    to: &Text,
) -> Result<Reply, AllocError>
    ensures ok { IfOk result (λ reply. answer_of indices.new aliases.now (reply_of reply) ≡ clone_over (at to.now indices.old.indices) (at to.now (keyed_of aliases.now)) (at from.now indices.old.indices) (store_of indices.old aliases.now) from.now to.now) }
    ensures err { OnErr result (indices.new ≡ indices.old) }
{
    if is_taken(indices, aliases, to) {
        return Ok(Reply::Refused(Refusal::NameTaken(to.clone()?)));
    }
    match indices.clone_index(from.as_str(), to.clone()?) {
        Ok(served) => Ok(reply(served)),
        Err(refused) => Err(refused),
    }
}

/// Whether an alias has the name, and no index.
fn is_taken(indices: &IndexStore, aliases: &List<Pair>, name: &Text) -> bool
    ensures { result ≡ is_taken_by (at name.now indices.now.indices) (at name.now (keyed_of aliases.now)) }
{
    !is_index(indices, name) && named_by(aliases, name).is_some()
}

/// Keeps the rows of the index that the name means, as a point in time.
pub fn open_pit(
    indices: &mut IndexStore,
    aliases: &List<Pair>,
    name: &Text,
) -> Result<Reply, AllocError>
    requires named { AreAliases indices.old.indices (keyed_of aliases.now) }
    requires few { indices.old.opened < 2 ^ 63 }
    ensures ok { IfOk result (λ reply. answer_of indices.new aliases.now (reply_of reply) ≡ open_over (at (meant_by (store_of indices.old aliases.now) name.now) indices.old.indices) (store_of indices.old aliases.now) name.now) }
    ensures err { OnErr result (indices.new ≡ indices.old) }
{
    let index = meant(indices, aliases, name);
    match indices.open_pit(index.as_str()) {
        Ok(served) => Ok(reply(served)),
        Err(refused) => Err(refused),
    }
}

/// Does the writes in order on the index that the name means.
pub fn bulk(
    indices: &mut IndexStore,
    aliases: &List<Pair>,
    name: &Text,
    writes: &List<Write>,
) -> Result<Reply, AllocError>
    requires named { AreAliases indices.old.indices (keyed_of aliases.now) }
    requires few { IfSome (at (meant_by (store_of indices.old aliases.now) name.now) indices.old.indices) (λ ix. ix.table.next + length writes.now ≤ 2 ^ 63) }
    ensures ok { IfOk result (λ reply. answer_of indices.new aliases.now (reply_of reply) ≡ bulk_over (at (meant_by (store_of indices.old aliases.now) name.now) indices.old.indices) (store_of indices.old aliases.now) name.now (meant_by (store_of indices.old aliases.now) name.now) (map write_of writes.now)) }
    ensures err { OnErr result (indices.new ≡ indices.old) }
{
    let copies = match writes_copy(writes) {
        Ok(copies) => copies,
        Err(refused) => return Err(refused),
    };
    let index = meant(indices, aliases, name);
    match indices.bulk(index.as_str(), copies) {
        Ok(served) => Ok(reply(served)),
        Err(refused) => Err(refused),
    }
}
