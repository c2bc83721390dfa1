/// How the objects of a type lie in spaces.
#[derive(Clone, Copy, Debug, PartialEq, Eq)]
pub enum Kind {
    /// Each object is in one space.
    Single,
    /// An object may be shared among spaces.
    Multiple,
    /// As `Multiple`, but its objects can't be shared by a call.
    MultipleIsolated,
    /// An object is in no space, and visible in all.
    Agnostic,
}
