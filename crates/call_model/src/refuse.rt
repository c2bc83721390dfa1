/// Why a call, or one item of a bulk call, is refused.
#[derive(Clone, Copy, Debug, PartialEq, Eq)]
pub enum Refuse {
    /// No row of the raw id has the type and is visible in the space.
    NotFound,
    /// A create found its raw id, an overwrite a row of another type or space, an update another number
    /// than its token's; or an earlier item of the bulk has the raw id.
    Conflict,
    /// The type isn't known, or doesn't allow the call.
    UnsupportedType,
    /// The id is empty or longer than 1,024 bytes.
    BadId,
    /// A space of the call is no space id.
    BadSpace,
    /// The token stands for no number.
    BadToken,
    /// The index of the version is blocked for writes.
    WriteBlocked,
    /// The version has no index yet.
    NotReady,
    /// A delete without force of an object that lies in several spaces, or in all.
    NeedsForce,
    /// The given stamp is above the latest version of the type.
    TooNew,
    /// The row had the number `seen` when the call read it and has the number `now` when it wrote.
    Busy { seen: Option<u64>, now: Option<u64> },
    /// The page is 0, or has more than 10,000 objects.
    BadPage,
    /// The filter isn't of the form of filters.
    BadFilter,
}

/// By which id a `resolve` found its object.
#[derive(Clone, Copy, Debug, PartialEq, Eq)]
pub enum MatchKind {
    /// By its own id.
    ExactMatch,
    /// By an old id, which an alias document leads from.
    AliasMatch,
    /// By both; the object is that of the own id.
    Conflict,
}
