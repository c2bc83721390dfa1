ghost use Rattle.std.specs.Prelude.{◌≡◌, ◌≤◌, true, ℕ, List, IfOk, IfErr};
ghost use Rattle.race_model.specs.Replies.{fits_reply};
ghost use Rattle.store_words.specs.Words.{request_of, reply_of, take_of};
ghost use Rattle.store_words.specs.Links.{IsSendable, Rose, risen, failed_after, Makes};
ghost use Rattle.store_words.specs.declared.entry.Entry.{Entry};
ghost use Rattle.store_words.specs.declared.link.FailedSend.{FailedSend};

use crate::reply::Reply;
use crate::request::Request;
use std::alloc::AllocError;

/// Why a send has no reply.
#[derive(Clone, Copy, Debug, PartialEq, Eq)]
pub enum LinkError {
    /// The send failed. The request was done now, will be done later, or never.
    Fault,
    /// Memory ran out, and the request was not done.
    Memory,
    /// The journal holds as many entries as it may, which are told.
    JournalFull(u64),
}

/// A send that was answered `Fault`.
#[derive(Debug, Drop)]
pub struct FailedSend {
    pub tag: u64,
    pub request: Request,
    /// Its number among the link's sends, from 1.
    pub send: u64,
    /// How many entries with heard replies the link had made before it.
    pub heard: u64,
}

/// A copy equals the failed send; or it is want of memory.
impl Clone for FailedSend {
    ghost is_clone = { λ old new. new ≡ old };

    fn clone(&self) -> Result<FailedSend, AllocError> {
        Ok(FailedSend {
            tag: self.tag,
            request: self.request.clone()?,
            send: self.send,
            heard: self.heard,
        })
    }
}

/// A way for requests to a store.
pub trait Link {
    // what the link was made with
    ghost Origin: { Type 0 };

    ghost origin: { Self → Origin };

    // how many sends there were, 2^64 - 1 where there were more
    ghost sends: { Self → ℕ };

    // the entries that this link made
    ghost entries: { Self → List Entry };

    // the sends that were answered Fault
    ghost failed: { Self → List FailedSend };

    // how often a send has failed
    ghost faults: { Self → ℕ };

    // how many entries the journal may hold
    ghost limit: { Self → ℕ };

    // how often a request met a full journal
    ghost full_answers: { Self → ℕ };

    /// Sends a request under a tag, and answers its reply, which fits it.
    ///
    /// `Fault` where the send failed, and the count of faults rose. `Memory` where memory ran out.
    /// `JournalFull` with the limit where the journal is full, and the count of full answers rose.
    fn send(&mut self, tag: u64, request: &Request) -> Result<Reply, LinkError>
        requires { IsSendable request.now }
        ensures origin { origin self.new ≡ origin self.old }
        ensures limit { limit self.new ≡ limit self.old }
        ensures sends { sends self.new ≡ risen (sends self.old) }
        ensures failed { failed self.new ≡ failed_after (failed self.old) tag request.now (sends self.new) (entries self.old) result }
        ensures fits { IfOk result (λ reply. fits_reply take_of (request_of request.now) (reply_of reply) ≡ true) }
        ensures entries { Makes (failed self.old) tag request.now result (entries self.old) (entries self.new) }
        ensures faults { faults self.old ≤ faults self.new }
        ensures fault { IfErr result (λ e. e ≡ LinkError.Fault → Rose (faults self.old) (faults self.new)) }
        ensures full_answers { full_answers self.old ≤ full_answers self.new }
        ensures full { IfErr result (λ e. (n : ℕ) → e ≡ LinkError.JournalFull n → (n ≡ limit self.old) × Rose (full_answers self.old) (full_answers self.new)) };
}
