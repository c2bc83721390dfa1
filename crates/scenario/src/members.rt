ghost use Rattle.std.specs.Prelude.{◌≡◌, not, codes};
ghost use Rattle.std.specs.List.{list_any};
ghost use Rattle.std.specs.Str.{bytes_eq};
ghost use Rattle.std.specs.Result.{result_map_both};
ghost use Rattle.so_js.specs.Tree.{members_in};
ghost use Rattle.call_lines.specs.Reading.{needed};
ghost use Rattle.call_lines.specs.Parts.{text_in};

use plain_data::List;
use so_js::{Js, Member, member};
use wire_io::InputKind;

/// The text under `line`. `MissingField` where it is missing, `WrongKind` where it is no text.
pub fn line_word(js: &Js) -> Result<&str, InputKind>
    ensures { result_map_both (λ word. word.now) (λ e. e) result ≡ needed text_in (codes "line") js.now }
{
    match member(js, "line") {
        Some(js) => word(js),
        None => Err(InputKind::MissingField),
    }
}

fn word(js: &Js) -> Result<&str, InputKind>
    ensures { result_map_both (λ word. word.now) (λ e. e) result ≡ text_in js.now }
{
    match js {
        Js::Str(text) => Ok(text.as_str()),
        _ => Err(InputKind::WrongKind),
    }
}

/// Whether the object has a member of none of these keys.
pub fn has_other_than(js: &Js, keys: &[&str]) -> bool
    ensures { result ≡ list_any (λ m. not (list_any (λ k. bytes_eq k.now m.key) keys.now)) (members_in js.now) }
{
    match js {
        Js::Object(members) => is_any_other(members, keys),
        _ => false,
    }
}

fn is_any_other(members: &List<Member>, keys: &[&str]) -> bool
    ensures { result ≡ list_any (λ m. not (list_any (λ k. bytes_eq k.now m.key) keys.now)) members.now }
{
    for m in members.as_slice() {
        if !is_among(m.key.as_str(), keys) {
            return true;
        }
    }
    false
}

fn is_among(key: &str, keys: &[&str]) -> bool
    ensures { result ≡ list_any (λ k. bytes_eq k.now key.now) keys.now }
{
    keys.iter().any(|k| *k == key)
}
