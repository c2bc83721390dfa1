ghost use Rattle.std.specs.Prelude.{◌≡◌, IfOk};
ghost use Rattle.document_model.specs.Documents.{raw_id};
ghost use Rattle.space_scope.specs.Spaces.{space_text};
ghost use Rattle.call_model.specs.Acts.{raw_of as raw_in};
ghost use Rattle.call_model.specs.Steps.{alias_of as alias_in, target_raw as raw_of_target};
ghost use Rattle.call_words.specs.Mapped.{target};

use crate::visibility::kind_of;
use plain_data::Text;
use query_model::Target;
use share_ids::alias_raw;
use space_scope::{Kind, Space};
use std::alloc::{AllocError, Global};
use type_registry::Registry;

/// The raw id of an object, by the kind of its type: `space:type:id` for a single type outside the
/// default space, else `type:id`.
pub fn raw_of(
    alloc: Global,
    reg: &Registry,
    space: &Space,
    type_name: &str,
    id: &str,
) -> Result<Text, AllocError>
    ensures { IfOk result (λ raw. raw ≡ raw_in reg.now (space_text space.now) (target type_name.now id.now)) }
{
    let kind = kind_of(reg, type_name);
    let raw = raw_by_kind(alloc, kind, space, type_name, id)?;
    Ok(raw)
}

#[tactic(auto, unfolding(base_model::specs::Keyed::same))]
fn raw_by_kind(
    alloc: Global,
    kind: Kind,
    space: &Space,
    type_name: &str,
    id: &str,
) -> Result<Text, AllocError>
    ensures { IfOk result (λ raw. raw ≡ raw_id kind (space_text space.now) type_name.now id.now) }
{
    let raw = match (kind, space) {
        (Kind::Single, Space::Named(space)) => {
            let space = space.as_str();
            format!(in alloc; "{space}:{type_name}:{id}")?
        }
        _ => format!(in alloc; "{type_name}:{id}")?,
    };
    Ok(Text::from_string(raw))
}

/// The raw id of the document that leads from an old id of an object to a new one.
pub fn alias_of(alloc: Global, space: &Space, target: &Target) -> Result<Text, AllocError>
    ensures { IfOk result (λ raw. raw ≡ alias_in (space_text space.now) target.now) }
{
    let raw = alias_raw(
        alloc,
        space.text(),
        target.type_name.as_str(),
        target.id.as_str(),
    )?;
    Ok(raw)
}

/// The raw id of the object that an alias leads to.
pub fn target_raw(alloc: Global, target: &Target) -> Result<Text, AllocError>
    ensures { IfOk result (λ raw. raw ≡ raw_of_target target.now) }
{
    let type_name = target.type_name.as_str();
    let id = target.id.as_str();
    let raw = format!(in alloc; "{type_name}:{id}")?;
    Ok(Text::from_string(raw))
}
