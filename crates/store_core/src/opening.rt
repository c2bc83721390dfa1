ghost use Rattle.std.specs.Prelude.{◌≡◌, [], IfOk};
ghost use Rattle.base_model.specs.Keyed.{put};
ghost use Rattle.alias_table.specs.Plans.{keyed_of};
ghost use Rattle.doc_table.specs.RowLists.{Each};
ghost use Rattle.doc_table.specs.Tables.{IsTable};
ghost use Rattle.store_core.specs.Engines.{paired_after};

use alias_table::Pair;
use index_store::Opened;
use plain_data::List;
use std::alloc::AllocError;
use text_order::is_below;

/// The pairs in rising order of alias; of two of one alias the later.
#[tactic(auto, unfolding(crate::specs::Engines::paired_after))]
pub fn in_order(pairs: List<Pair>) -> Result<List<Pair>, AllocError>
    ensures { IfOk result (λ all. keyed_of all ≡ paired_after [] pairs) }
{
    let mut all = List::new(pairs.alloc());
    for pair in pairs.into_vec() {
        all = with_pair(all, pair)?;
    }
    Ok(all)
}

/// The pairs with this one, in the place of one of its alias or else before the first later alias.
#[tactic(auto, unfolding(base_model::specs::Keyed::put, base_model::specs::Keyed::same))]
fn with_pair(pairs: List<Pair>, new: Pair) -> Result<List<Pair>, AllocError>
    ensures { IfOk result (λ all. keyed_of all ≡ put new.alias new.index (keyed_of pairs)) }
{
    let mut all = List::new(pairs.alloc());
    let mut waiting = Some(new);
    for pair in pairs.into_vec() {
        match waiting.take() {
            Some(new) if new.alias == pair.alias => all.push(new)?,
            Some(new) if is_below(&new.alias, &pair.alias) => {
                all.push(new)?;
                all.push(pair)?;
            }
            later => {
                waiting = later;
                all.push(pair)?;
            }
        }
    }
    if let Some(new) = waiting {
        all.push(new)?;
    }
    Ok(all)
}

/// The same indices, whose tables share their rows.
pub fn copies(indices: &List<Opened>) -> Result<List<Opened>, AllocError>
    ensures same { IfOk result (λ all. all ≡ indices.now) }
    ensures tables { IfOk result (λ _. Each (λ o. IsTable o.table) indices.now) }
{
    let mut all = List::new(indices.alloc());
    for opened in indices.as_slice() {
        all.push(copied(opened)?)?;
    }
    Ok(all)
}

/// The same index, whose table shares its rows. Reads the next number, which says that those of the
/// rows are below it.
fn copied(opened: &Opened) -> Result<Opened, AllocError>
    ensures same { IfOk result (λ copy. copy ≡ opened.now) }
    ensures table { IsTable opened.now.table }
{
    let _next = opened.table.next();
    Ok(Opened {
        name: opened.name.clone()?,
        table: opened.table.snapshot()?,
    })
}

/// The same pairs.
pub fn pairs_copy(pairs: &List<Pair>) -> Result<List<Pair>, AllocError>
    ensures { IfOk result (λ copy. copy ≡ pairs.now) }
{
    pairs.clone()
}
