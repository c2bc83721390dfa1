ghost use Rattle.std.specs.Prelude.{◌≡◌, IfOk};
ghost use Rattle.std.specs.Option.{option_copied};
ghost use Rattle.base_model.specs.Keyed.{at, put, without};
ghost use Rattle.race_model.specs.Stores.{aliases_without};
ghost use Rattle.alias_table.specs.Plans.{keyed_of, bare_indices, index_if, names_without};

use crate::pair::Pair;
use plain_data::{List, Text};
use std::alloc::AllocError;
use text_order::is_below;

/// Whether an index has this name.
#[tactic(auto, unfolding(base_model::specs::Keyed::at, base_model::specs::Keyed::same))]
pub(crate) fn has_name(names: &List<Text>, name: &Text) -> bool
    ensures { at name.now (bare_indices names.now) ≡ index_if result }
{
    for other in names.as_slice() {
        if name == other {
            return true;
        }
    }
    false
}

/// The index that the alias names.
#[tactic(auto, unfolding(base_model::specs::Keyed::at, base_model::specs::Keyed::same))]
pub(crate) fn named_by<'a>(pairs: &'a List<Pair>, alias: &Text) -> Option<&'a Text>
    ensures { option_copied result ≡ at alias.now (keyed_of pairs.now) }
{
    for pair in pairs.as_slice() {
        if *alias == pair.alias {
            return Some(&pair.index);
        }
    }
    None
}

/// The names of the other indices.
#[tactic(auto, unfolding(base_model::specs::Keyed::same))]
pub(crate) fn without_name(names: &List<Text>, name: &Text) -> Result<List<Text>, AllocError>
    ensures { IfOk result (λ kept. kept ≡ names_without name.now names.now) }
{
    let mut kept = List::new(names.alloc());
    for other in names.as_slice() {
        if name != other {
            kept.push(other.clone()?)?;
        }
    }
    Ok(kept)
}

/// The pairs of the other aliases.
#[tactic(auto, unfolding(base_model::specs::Keyed::without, base_model::specs::Keyed::same))]
pub(crate) fn without_alias(pairs: &List<Pair>, alias: &Text) -> Result<List<Pair>, AllocError>
    ensures { IfOk result (λ kept. keyed_of kept ≡ without alias.now (keyed_of pairs.now)) }
{
    let mut kept = List::new(pairs.alloc());
    for pair in pairs.as_slice() {
        if *alias == pair.alias {
            continue;
        }
        kept.push(pair.clone()?)?;
    }
    Ok(kept)
}

/// The pairs that name another index.
#[tactic(auto, unfolding(race_model::specs::Stores::aliases_without, base_model::specs::Keyed::same))]
pub(crate) fn without_index(pairs: &List<Pair>, index: &Text) -> Result<List<Pair>, AllocError>
    ensures { IfOk result (λ kept. keyed_of kept ≡ aliases_without index.now (keyed_of pairs.now)) }
{
    let mut kept = List::new(pairs.alloc());
    for pair in pairs.as_slice() {
        if pair.index == *index {
            continue;
        }
        kept.push(pair.clone()?)?;
    }
    Ok(kept)
}

/// The pairs with this one, in the place of one of its alias or else before the first later alias.
#[tactic(auto, unfolding(base_model::specs::Keyed::put, base_model::specs::Keyed::same))]
pub(crate) fn with_pair(pairs: &List<Pair>, new: Pair) -> Result<List<Pair>, AllocError>
    ensures { IfOk result (λ all. keyed_of all ≡ put new.alias new.index (keyed_of pairs.now)) }
{
    let mut all = List::new(pairs.alloc());
    let mut waiting = Some(new);
    for pair in pairs.as_slice() {
        match waiting.take() {
            Some(new) if new.alias == pair.alias => all.push(new)?,
            Some(new) if is_below(&new.alias, &pair.alias) => {
                all.push(new)?;
                all.push(pair.clone()?)?;
            }
            later => {
                waiting = later;
                all.push(pair.clone()?)?;
            }
        }
    }
    if let Some(new) = waiting {
        all.push(new)?;
    }
    Ok(all)
}
