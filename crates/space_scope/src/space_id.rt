ghost use Rattle.std.specs.Prelude.{◌≡◌, ◌==◌, ◌↔◌, true, false, IfOk, IsErrOf, nat_le, length, ◌&&◌};
ghost use Rattle.std.specs.List.{list_all};
ghost use Rattle.std.specs.Cmp.{partial_equiv_from_equiv};
ghost use Rattle.std.specs.Cmp.Lexicographic.{pointwise, nat_list_eq_equiv};
ghost use Rattle.space_scope.specs.Spaces.{is_space_byte, is_space_text, is_space_id as is_id};

use crate::error::SpaceError;
use plain_data::Text;
use std::alloc::{AllocError, Global};
use std::marker::Model;

/// The id of a space other than the default one: 1 to 64 bytes of a-z, 0-9, `_` and `-`, and not
/// `default`. Contracts see its text.
#[derive(Debug, Drop)]
pub struct SpaceId {
    text: Text,
}

impl Model for SpaceId {
    ghost use Rattle.std.specs.Prelude.{◌≡◌, List, ℕ, true};

    ghost Value = { List ℕ };

    ghost use Rattle.space_scope.specs.Spaces.{is_space_id};

    ghost view = { λ id. id.text };

    ghost invariant = { λ id. is_space_id id.text ≡ true };
}

impl SpaceId {
    /// The space id that the text is. `BadSpace` exactly where the text is no space id or is
    /// `default`; `Memory` where the text can't be copied.
    pub fn new(alloc: Global, text: &str) -> Result<SpaceId, SpaceError>
        ensures ok { IfOk result (λ id. (id ≡ text.now) × (is_id text.now ≡ true)) }
        ensures refused { IsErrOf result SpaceError.BadSpace ↔ (is_id text.now ≡ false) }
    {
        if !is_space_id(text) {
            return Err(SpaceError::BadSpace);
        }
        let text = Text::from_str(alloc, text)?;
        Ok(SpaceId { text })
    }

    /// The id as it is written. Takes no memory.
    pub fn as_str(&self) -> &str
        ensures text { result.now ≡ self.now }
        ensures id { is_id self.now ≡ true }
    {
        self.text.as_str()
    }
}

/// Whether the text is the id of a space other than the default one. Takes no memory.
pub fn is_space_id(text: &str) -> bool
    ensures { result ≡ is_id text.now }
{
    has_form(text) && text != "default"
}

fn has_form(text: &str) -> bool
    ensures { result ≡ is_space_text text.now }
{
    !text.is_empty() && text.len() <= 64 && has_space_bytes(text)
}

fn has_space_bytes(text: &str) -> bool
    ensures { result ≡ list_all is_space_byte text.now }
{
    text.as_bytes().iter().all(|byte| may_stand_in_id(*byte))
}

fn may_stand_in_id(byte: u8) -> bool
    ensures { result ≡ is_space_byte byte }
{
    matches!(byte, b'a'..=b'z' | b'0'..=b'9' | b'_' | b'-')
}

impl Clone for SpaceId {
    ghost is_clone = { λ old new. new ≡ old };

    fn clone(&self) -> Result<SpaceId, AllocError> {
        Ok(SpaceId {
            text: self.text.clone()?,
        })
    }
}

/// Two ids are equal where their texts are.
impl PartialEq for SpaceId {
    ghost eq = { pointwise ◌==◌ };

    ghost laws = { partial_equiv_from_equiv nat_list_eq_equiv };

    fn eq(&self, other: &SpaceId) -> bool {
        self.text == other.text
    }
}

impl Eq for SpaceId {
    ghost laws = { nat_list_eq_equiv };
}
