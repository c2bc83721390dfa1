ghost use Rattle.std.specs.Prelude.{◌≡◌};
ghost use Rattle.std.specs.Option.{is_some, option_copied};
ghost use Rattle.base_model.specs.Keyed.{at};
ghost use Rattle.race_model.specs.Stores.{meant as meant_by};
ghost use Rattle.alias_table.specs.Plans.{keyed_of};
ghost use Rattle.store_core.specs.Engines.{store_of};

use alias_table::Pair;
use index_store::IndexStore;
use plain_data::{List, Text};

/// The index that an alias names, if there is such an alias. Takes no memory.
#[tactic(auto, unfolding(base_model::specs::Keyed::at, base_model::specs::Keyed::same))]
pub fn named_by<'a>(aliases: &'a List<Pair>, alias: &Text) -> Option<&'a Text>
    ensures { option_copied result ≡ at alias.now (keyed_of aliases.now) }
{
    for pair in aliases.as_slice() {
        if *alias == pair.alias {
            return Some(&pair.index);
        }
    }
    None
}

/// Whether there is an index of this name. Takes no memory.
pub fn is_index(indices: &IndexStore, name: &Text) -> bool
    ensures { result ≡ is_some (at name.now indices.now.indices) }
{
    indices.blocked(name.as_str()).is_some()
}

/// The index that a name means in a read or a bulk: itself where it is an index or nothing, and
/// else the index that the alias names. Takes no memory.
#[tactic(auto, unfolding(race_model::specs::Stores::meant))]
pub fn meant<'a>(indices: &IndexStore, aliases: &'a List<Pair>, name: &'a Text) -> &'a Text
    ensures { result.now ≡ meant_by (store_of indices.now aliases.now) name.now }
{
    if is_index(indices, name) {
        return name;
    }
    match named_by(aliases, name) {
        Some(index) => index,
        None => name,
    }
}
