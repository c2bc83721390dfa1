ghost use Rattle.std.specs.Prelude.{◌≡◌, ◌↔◌, true, Some, None, IfOk, IsErrOf};
ghost use Rattle.space_scope.specs.Spaces.{space_in, space_text, is_space_text};

use crate::error::SpaceError;
use crate::space_id::SpaceId;
use std::alloc::Global;

/// Where an object lies.
#[derive(Clone, Debug, PartialEq, Eq, Drop)]
pub enum Space {
    /// The space written `default`.
    Default,
    /// A space with an id of its own.
    Named(SpaceId),
}

impl Space {
    /// The space that the text names: the default one for `default`, else the one with this id.
    /// `BadSpace` exactly where the text is no space id; `Memory` where it can't be copied.
    pub fn read(alloc: Global, text: &str) -> Result<Space, SpaceError>
        ensures ok { IfOk result (λ space. space_in text.now ≡ Some space) }
        ensures refused { IsErrOf result SpaceError.BadSpace ↔ (space_in text.now ≡ None) }
        ensures text_of { IfOk result (λ space. space_text space ≡ text.now) }
    {
        if text == "default" {
            return Ok(Space::Default);
        }
        let id = SpaceId::new(alloc, text)?;
        Ok(Space::Named(id))
    }

    /// The space as it is written. Takes no memory.
    pub fn text(&self) -> &str
        ensures text { result.now ≡ space_text self.now }
        ensures form { is_space_text (space_text self.now) ≡ true }
    {
        match self {
            Space::Default => "default",
            Space::Named(id) => id.as_str(),
        }
    }
}
