ghost use Rattle.std.specs.Prelude.{◌≡◌, [], ℕ, true};
ghost use Rattle.store_words.specs.Serving.{Store};
ghost use Rattle.store_core.specs.Journals.{IsJournaled};
ghost use Rattle.own_link.specs.Links.{origin_of, met_full_journals};

use std::marker::Model;
use store_core::{StoreCore, StoreError};
use store_words::{How, Link, LinkError, Reply, Request};

/// A link over a store that nobody shares, for one actor. Its sends never fail.
///
/// Contracts see the store with its journal, the actor, how many sends there were, and how often a
/// send met a full journal; both numbers stay at 2^64 - 1 once there.
#[derive(Debug, Drop)]
pub struct OwnLink {
    core: StoreCore,
    actor: u32,
    sends: u64,
    full_answers: u64,
}

impl Model for OwnLink {
    ghost use Rattle.own_link.specs.Links.{Linked, linked_code, met_full_journals};
    ghost use Rattle.std.specs.Prelude.{◌≡◌, true};

    ghost Value = { Linked };

    ghost coded = { linked_code };

    ghost view = { λ l. record { core = l.core; actor = l.actor; sends = l.sends; full_answers = l.full_answers } };

    ghost invariant = { λ l. met_full_journals l.core l.full_answers ≡ true };
}

impl OwnLink {
    /// A link of this actor over a store, before its first send. Takes no memory.
    pub fn new(core: StoreCore, actor: u32) -> OwnLink
        ensures { result ≡ record { core = core; actor = actor; sends = 0; full_answers = 0 } }
    {
        OwnLink {
            core,
            actor,
            sends: 0,
            full_answers: 0,
        }
    }

    /// The store with its journal. Takes no memory.
    pub fn core(&self) -> &StoreCore
        ensures { result.now ≡ self.now.core }
    {
        &self.core
    }

    /// What holds of every link: its journal replays to its store, and is full where a send met a
    /// full journal. Takes no memory.
    pub(crate) fn stands(&self)
        ensures journaled { IsJournaled self.now.core }
        ensures met { met_full_journals self.now.core self.now.full_answers ≡ true }
    {
        let _ = self.core.journal();
    }
}

impl Link for OwnLink {
    ghost Origin = { Store × (ℕ × ℕ) };

    ghost origin = { origin_of };

    ghost sends = { λ l. l.sends };

    ghost entries = { λ l. l.core.journal };

    ghost failed = { λ _. [] };

    ghost faults = { λ _. 0 };

    ghost limit = { λ l. l.core.limit };

    ghost full_answers = { λ l. l.full_answers };

    fn send(&mut self, tag: u64, request: &Request) -> Result<Reply, LinkError> {
        self.sends = self.sends.saturating_add(1);
        match self.core.send(self.actor, tag, How::Heard, request) {
            Ok(reply) => Ok(reply),
            Err(StoreError::Memory) => Err(LinkError::Memory),
            Err(StoreError::JournalFull(limit)) => {
                self.full_answers = self.full_answers.saturating_add(1);
                Err(LinkError::JournalFull(limit))
            }
        }
    }
}
