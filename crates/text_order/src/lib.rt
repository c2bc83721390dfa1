//! The order of texts as the definitions have it: byte by byte, a front before the whole.
#![tactic(auto)]

ghost use Rattle.std.specs.Prelude.{◌≡◌};
ghost use Rattle.base_model.specs.Keyed.{text_lt};

use plain_data::Text;

/// Whether the first text comes before the second. Takes no memory.
pub fn is_below(first: &Text, second: &Text) -> bool
    ensures { result ≡ text_lt first.now second.now }
{
    first < second
}
