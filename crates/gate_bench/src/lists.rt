//! What the actors add.
ghost use Rattle.std.specs.Prelude.{◌≡◌, ◌≤◌, ◌^◌, IfOk, vec_len};

use std::alloc::{AllocError, Global};

/// A list for each actor, which has the actor's number once for each turn.
pub(crate) fn repeated(alloc: Global, actors: u64, turns: u64) -> Result<Vec<Vec<u64>>, AllocError>
    ensures { IfOk result (λ lists. vec_len lists ≡ actors) }
{
    let mut lists = Vec::new(alloc);
    for actor in 0..actors {
        lists.push(Vec::from_elem(alloc, actor, turns as usize)?)?;
    }
    Ok(lists)
}
