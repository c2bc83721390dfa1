/// What an audit says.
#[derive(Clone, Copy, Debug, PartialEq, Eq)]
pub enum Verdict {
    /// All is as the definitions have it.
    Legal,
    /// The first place that isn't, and the first reason of it.
    BadAt { place: u64, reason: Reason },
}

/// Why a place of a journal, or a printed line, is bad. Of several reasons for one place the first in
/// this order is told.
#[derive(Clone, Copy, Debug, PartialEq, Eq)]
pub enum Reason {
    /// The request isn't its actor's next, or there is no such actor, call or start.
    Request,
    /// A late request repeats none of its instance, or is a client's.
    Late,
    /// The reply isn't the store's.
    Reply,
    /// The history isn't the one that the entries give, or its call's answer isn't that of one thread.
    History,
    /// The answer isn't the one that the entries give.
    Answer,
    /// The end isn't one that the entries leave.
    End,
    /// A line stands after a later kind.
    Order,
    /// The input ends before a line that must come.
    Missing,
}
