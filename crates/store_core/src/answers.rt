ghost use Rattle.std.specs.Prelude.{◌≡◌};
ghost use Rattle.index_store.specs.Serves.{reply_of as answer_of};
ghost use Rattle.store_words.specs.Words.{reply_of};

use index_store::Served;
use store_words::{Refusal, Reply};

/// The reply that an answer of the indices stands for.
pub fn reply(served: Served) -> Reply
    ensures { reply_of result ≡ answer_of served }
{
    match served {
        Served::Done => Reply::Done,
        Served::Pit(number) => Reply::Pit(number),
        Served::Rows(selected) => Reply::Rows(selected),
        Served::Found(rows) => Reply::Found(rows),
        Served::Items(items) => Reply::Items(items),
        Served::Exists { name, source } => Reply::Refused(Refusal::Exists { name, source }),
        Served::NoIndex(name) => Reply::Refused(Refusal::NoIndex(name)),
        Served::NotBlocked(name) => Reply::Refused(Refusal::NotBlocked(name)),
        Served::NoPit(number) => Reply::Refused(Refusal::NoPit(number)),
        Served::Blocked(name) => Reply::Refused(Refusal::Blocked(name)),
    }
}
