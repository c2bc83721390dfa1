ghost use Rattle.std.specs.Prelude.{◌≡◌};
ghost use Rattle.std.specs.Option.{option_copied, option_map};
ghost use Rattle.race_model.specs.Stores.{pit_at, close};
ghost use Rattle.index_store.specs.Indices.{pits_of};

use doc_table::DocTable;

/// An open point in time: the table as it was, shared with the index.
#[derive(Debug, Drop)]
pub struct Kept {
    pub number: u64,
    pub table: DocTable,
}

/// The point in time of a number, if it is open.
#[tactic(auto, unfolding(race_model::specs::Stores::pit_at))]
pub fn kept_at(pits: &[Kept], number: u64) -> Option<&Kept>
    ensures { option_map (λ kept. kept.table.rows) (option_copied result) ≡ pit_at number (pits_of pits.now) }
{
    for kept in pits {
        if number == kept.number {
            return Some(kept);
        }
    }
    None
}

/// Takes the point in time of a number out. Takes no memory.
pub fn let_go(pits: &mut Vec<Kept>, number: u64)
    ensures { pits_of pits.new.items ≡ close number (pits_of pits.old.items) }
{
    pits.retain(|kept| number != kept.number);
}
