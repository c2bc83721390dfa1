ghost use Rattle.std.specs.Prelude.{◌≡◌};

use crate::reply::Reply;
use crate::request::Request;
use std::alloc::AllocError;

/// Whether a reply was heard.
#[derive(Clone, Copy, Debug, PartialEq, Eq)]
pub enum How {
    /// The actor heard the reply.
    Heard,
    /// The send failed, though the request was done.
    Unheard,
    /// A request whose send had failed was done later.
    Late,
}

/// A request that was done, with its reply: an entry of a journal.
#[derive(Debug, Drop)]
pub struct Entry {
    /// Who sent it: an instance by its number, a client by 100 and its number.
    pub actor: u32,
    /// The start of the instance, or the call of the client, from 1.
    pub tag: u64,
    pub how: How,
    pub request: Request,
    pub reply: Reply,
}

/// A copy equals the entry; or it is want of memory.
impl Clone for Entry {
    ghost is_clone = { λ old new. new ≡ old };

    fn clone(&self) -> Result<Entry, AllocError> {
        Ok(Entry {
            actor: self.actor,
            tag: self.tag,
            how: self.how,
            request: self.request.clone()?,
            reply: self.reply.clone()?,
        })
    }
}
