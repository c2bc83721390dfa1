ghost use Rattle.std.specs.Prelude.{◌≡◌, ◌||◌, Option, IfOk, option_map, if◌then◌else◌, Some, None};
ghost use Rattle.std.specs.List.{list_all};
ghost use Rattle.base_model.specs.Keyed.{Text as Bytes, same};
ghost use Rattle.document_model.specs.Documents.{everywhere};
ghost use Rattle.space_scope.specs.Spaces.{space_text};
ghost use Rattle.so_js.specs.declared.js.Js.{Js};
ghost use Rattle.query_model.specs.declared.parts.Target.{Target};
ghost use Rattle.call_model.specs.Calls.Act.{Share};
ghost use Rattle.call_model.specs.Acts.{is_space as is_space_in, all_spaces_or_all, bad_space};

use plain_data::{List, Text};
use space_scope::{Space, SpaceError, is_space_id};
use std::alloc::{AllocError, Global};

/// Whether the text names a space: 1 to 64 bytes of a-z, 0-9, `_` and `-`. Takes no memory.
#[tactic(auto, unfolding(call_model::specs::Acts::is_space))]
pub fn is_space(text: &str) -> bool
    ensures { result ≡ is_space_in text.now }
{
    text == "default" || is_space_id(text)
}

/// The space that a call names. `None` exactly where the text names no space, which is `BadSpace`.
#[tactic(auto, unfolding(call_model::specs::Acts::is_space))]
pub fn read_space(alloc: Global, text: &str) -> Result<Option<Space>, AllocError>
    ensures { IfOk result (λ space. option_map space_text space ≡ (if is_space_in text.now then Some text.now else None)) }
{
    match Space::read(alloc, text) {
        Ok(space) => Ok(Some(space)),
        Err(SpaceError::BadSpace) => Ok(None),
        Err(SpaceError::Memory) => Err(AllocError),
    }
}

/// Whether each text names a space or is `*`, as `add` and `remove` of a share have to. Where not,
/// the share is refused as `BadSpace`. Takes no memory.
pub fn are_spaces_or_all(texts: &List<Text>) -> bool
    ensures { result ≡ all_spaces_or_all texts.now }
{
    has_spaces_or_all(texts)
}

/// Whether a share is refused as `BadSpace`: its own space is none, or one to add or to remove is
/// neither a space nor `*`. Any other call is refused so where its own space is none. Takes no
/// memory.
pub fn has_bad_space(space: &str, add: &List<Text>, remove: &List<Text>) -> bool
    ensures { (target : Target) (time : Option Bytes) → result ≡ bad_space {A = Js} space.now (Share target add.now remove.now time) }
{
    !(is_space(space) && are_spaces_or_all(add) && are_spaces_or_all(remove))
}

fn has_spaces_or_all(texts: &List<Text>) -> bool
    ensures { result ≡ list_all (λ text. is_space_in text || same text everywhere) texts.now }
{
    texts.as_slice().iter().all(|text| is_space_or_all(text))
}

#[tactic(auto, unfolding(base_model::specs::Keyed::same))]
fn is_space_or_all(text: &Text) -> bool
    ensures { result ≡ (is_space_in text.now || same text.now everywhere) }
{
    is_space(text.as_str()) || text.as_str() == "*"
}
