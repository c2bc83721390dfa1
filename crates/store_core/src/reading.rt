ghost use Rattle.std.specs.Prelude.{◌≡◌, ◌++◌, IfOk, OnOk};
ghost use Rattle.std.specs.Option.{option_map, option_to_list};
ghost use Rattle.base_model.specs.Keyed.{at};
ghost use Rattle.race_model.specs.Stores.{seen as all_flags, get_over, search_over, meant as meant_by};
ghost use Rattle.race_model.specs.Stores.Reply.{Seen};
ghost use Rattle.query_model.specs.Queries.{select};
ghost use Rattle.alias_table.specs.Plans.{keyed_of};
ghost use Rattle.doc_query.specs.Mapped.{query_of, holds_of};
ghost use Rattle.index_store.specs.Indices.{shown_of};
ghost use Rattle.store_words.specs.Words.{reply_of, seen_of, all_seen};
ghost use Rattle.store_core.specs.Standing.{AreAliases};
ghost use Rattle.store_core.specs.Engines.{store_of};

use crate::answers::reply;
use crate::naming::meant;
use alias_table::Pair;
use index_store::{IndexStore, Shown};
use plain_data::{List, Text};
use std::alloc::AllocError;
use store_words::{IndexSeen, Query, Reply};

/// What is there: the indices and the aliases, each in rising order of name.
pub fn state(indices: &IndexStore, aliases: &List<Pair>) -> Result<Reply, AllocError>
    ensures { IfOk result (λ reply. reply_of reply ≡ Seen (all_flags indices.now.indices) (keyed_of aliases.now)) }
{
    let all = all_shown(indices, aliases)?;
    Ok(Reply::State {
        indices: all,
        aliases: aliases.clone()?,
    })
}

fn all_shown(indices: &IndexStore, aliases: &List<Pair>) -> Result<List<IndexSeen>, AllocError>
    ensures { IfOk result (λ all. all_seen all ≡ all_flags indices.now.indices) }
{
    let mut all = List::new(aliases.alloc());
    for at in 0..indices.len() {
        push_shown(&mut all, indices.shown(at))?;
    }
    Ok(all)
}

/// Adds what is shown of an index, if there is one.
fn push_shown(all: &mut List<IndexSeen>, shown: Option<Shown<'_>>) -> Result<(), AllocError>
    ensures { OnOk result (all_seen all.new ≡ all_seen all.old ++ option_to_list (option_map shown_of shown.entry)) }
{
    if let Some(shown) = shown {
        all.push(seen(shown)?)?;
    }
    Ok(())
}

fn seen(shown: Shown<'_>) -> Result<IndexSeen, AllocError>
    ensures { IfOk result (λ index. seen_of index ≡ shown_of shown.entry) }
{
    let source = match shown.source {
        Some(source) => Some(source.clone()?),
        None => None,
    };
    Ok(IndexSeen {
        name: shown.name.clone()?,
        blocked: shown.blocked,
        source,
    })
}

/// A row or none for each raw id, of the index that the name means.
pub fn get(
    indices: &mut IndexStore,
    aliases: &List<Pair>,
    name: &Text,
    raws: &List<Text>,
) -> Result<Reply, AllocError>
    requires { AreAliases indices.old.indices (keyed_of aliases.now) }
    ensures ok { IfOk result (λ reply. reply_of reply ≡ get_over (at (meant_by (store_of indices.old aliases.now) name.now) indices.old.indices) name.now raws.now) }
    ensures same { indices.new ≡ indices.old }
{
    let index = meant(indices, aliases, name);
    match indices.get(index.as_str(), raws) {
        Ok(served) => Ok(reply(served)),
        Err(refused) => Err(refused),
    }
}

/// The rows that a query selects of the index that the name means.
pub fn search(
    indices: &mut IndexStore,
    aliases: &List<Pair>,
    name: &Text,
    query: &Query,
) -> Result<Reply, AllocError>
    requires { AreAliases indices.old.indices (keyed_of aliases.now) }
    ensures ok { IfOk result (λ reply. reply_of reply ≡ search_over (select holds_of) (at (meant_by (store_of indices.old aliases.now) name.now) indices.old.indices) name.now (query_of query.now)) }
    ensures same { indices.new ≡ indices.old }
{
    let index = meant(indices, aliases, name);
    match indices.search(index.as_str(), query) {
        Ok(served) => Ok(reply(served)),
        Err(refused) => Err(refused),
    }
}
