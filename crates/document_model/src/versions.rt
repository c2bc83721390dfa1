ghost use Rattle.std.specs.Prelude.{◌≡◌};
ghost use Rattle.document_model.specs.Documents.{ver_lt, below};

use version_token::Ver;

/// Whether the version is below another, number by number. Takes no memory.
#[tactic(auto, unfolding(crate::specs::Documents::ver_lt))]
pub fn is_below(version: Ver, other: Ver) -> bool
    ensures { result ≡ ver_lt version other }
{
    if version.major != other.major {
        return version.major < other.major;
    }
    if version.minor != other.minor {
        return version.minor < other.minor;
    }
    version.patch < other.patch
}

/// Whether a version that may be missing is below another; a missing one is below all. Takes no memory.
pub fn is_missing_or_below(version: Option<Ver>, other: Ver) -> bool
    ensures { result ≡ below version other }
{
    match version {
        None => true,
        Some(version) => is_below(version, other),
    }
}
