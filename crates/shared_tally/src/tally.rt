//! The numbers that were added, in order.
ghost use Rattle.std.specs.Prelude.{◌≡◌, ◌++◌, ◌∷◌, [], MatchResult};
ghost use Rattle.shared_tally.specs.Tallied.{opened};

use std::alloc::{AllocError, Global};
use std::marker::Model;
use turn_gate::Turned;

/// What the mixed word begins as.
const SEED: u64 = 88_172_645_463_325_252;

/// The numbers that were added in turns, and a word that each turn mixes for a number of rounds, so that a turn takes time.
#[derive(Drop)]
pub struct Tally {
    rounds: u64,
    mixed: u64,
    added: Vec<u64>,
}

impl Model for Tally {
    ghost use Rattle.shared_tally.specs.Tallied.{Tallied};

    ghost Value = { Tallied };

    ghost view = { λ t. record { rounds = t.rounds; added = t.added.items } };
}

/// One round of Marsaglia's xorshift generator, with the shifts 13, 7 and 17.
fn mix(word: u64) -> u64 {
    let word = word ^ (word << 13);
    let word = word ^ (word >> 7);
    word ^ (word << 17)
}

impl Tally {
    /// An empty tally, each turn of which mixes its word for this number of rounds.
    pub fn new(alloc: Global, rounds: u64) -> Tally
        ensures { (result.rounds ≡ rounds) × (result.added ≡ []) }
    {
        Tally {
            rounds,
            mixed: SEED,
            added: Vec::new(alloc),
        }
    }

    /// The numbers that were added, in order.
    pub fn added(&self) -> &[u64]
        ensures { result.now ≡ self.now.added }
    {
        self.added.as_slice()
    }

    /// The word as all turns together mixed it. It depends on how many there were, and not on their order.
    pub fn mixed(&self) -> u64 {
        self.mixed
    }
}

impl Turned for Tally {
    /// The number to add.
    type Ask = u64;

    type Told = Result<(), AllocError>;

    type Entry = u64;

    ghost opening = { opened };

    ghost entries = { λ t. t.added };

    ghost turns = { λ _ before ask told after. MatchResult told (λ _. after ≡ before ++ ask ∷ []) (λ _. after ≡ before) };

    fn turn(&mut self, ask: u64) -> Result<(), AllocError> {
        let mut word = self.mixed;
        for _ in 0..self.rounds {
            word = mix(word);
        }
        self.mixed = word;
        self.added.push(ask)?;
        Ok(())
    }
}
