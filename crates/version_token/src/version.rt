ghost use Rattle.std.specs.Prelude.{◌≡◌, Some, IfOk, IfSome, string_bytes};
ghost use Rattle.version_token.specs.Version.{ver_of, ver_text};

use crate::Ver;
use semver::Version;
use std::alloc::{AllocError, Global};

impl Ver {
    /// Reads a version of SemVer 2.0.0. `None` where the text is none, where it has a pre-release or
    /// build part, and where a number is 2^64 or above. A plain version takes no memory, so want of
    /// memory is never the cause.
    pub fn parse(alloc: Global, text: &str) -> Option<Ver>
        ensures exact { result ≡ ver_of text.now }
        ensures only { IfSome result (λ version. text.now ≡ ver_text version) }
    {
        let Ok(version) = Version::parse(alloc, text) else {
            return None;
        };
        if !version.pre.is_empty() || !version.build.is_empty() {
            return None;
        }
        Some(Ver {
            major: version.major,
            minor: version.minor,
            patch: version.patch,
        })
    }

    /// The text of the version, which `parse` reads.
    pub fn text(self, alloc: Global) -> Result<String, AllocError>
        ensures text { IfOk result (λ text. string_bytes text ≡ ver_text self) }
        ensures reads_back { IfOk result (λ text. ver_of (string_bytes text) ≡ Some self) }
    {
        let major = self.major;
        let minor = self.minor;
        let patch = self.patch;
        format!(in alloc; "{major}.{minor}.{patch}")
    }
}
