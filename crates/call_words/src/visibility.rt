ghost use Rattle.std.specs.Prelude.{◌≡◌};
ghost use Rattle.call_model.specs.Acts.{kind_of as kind_in, is_seen as is_seen_in};
ghost use Rattle.space_scope.specs.Spaces.{space_text};

use saved_doc::{Doc, visible};
use space_scope::{Kind, Space};
use type_registry::Registry;

/// The kind of a type; `Agnostic` where it isn't known. Takes no memory.
pub fn kind_of(reg: &Registry, type_name: &str) -> Kind
    ensures { result ≡ kind_in reg.now type_name.now }
{
    match reg.kind_of(type_name) {
        Some(kind) => kind,
        None => Kind::Agnostic,
    }
}

/// Whether the document has the type and is visible in the space. Takes no memory.
#[tactic(auto, unfolding(call_model::specs::Acts::is_seen, base_model::specs::Keyed::same))]
pub fn is_seen(reg: &Registry, space: &Space, type_name: &str, doc: &Doc) -> bool
    ensures { result ≡ is_seen_in reg.now (space_text space.now) type_name.now doc.now }
{
    doc.type_name() == type_name && visible(kind_of(reg, type_name), doc, space)
}
