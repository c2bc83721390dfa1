ghost use Rattle.std.specs.Prelude.{◌≡◌, ◌↔◌, [], true, false, IfOk, IsErrOf};
ghost use Rattle.document_model.specs.Documents.{raw_id};
ghost use Rattle.document_model.specs.Names.{is_type_name as is_name_of_type};
ghost use Rattle.space_scope.specs.Spaces.{space_text};

use crate::error::RawError;
use document_model::is_type_name;
use plain_data::Text;
use space_scope::{Kind, Space};
use std::alloc::{AllocError, Global};

/// The raw id of an object: `space:type:id` for a single type outside the default space, and
/// `type:id` otherwise.
///
/// `BadType` exactly where the type's name is no type name; then `BadId` exactly where the id is
/// empty; `Memory` where memory runs out.
pub fn raw_of(
    alloc: Global,
    kind: Kind,
    space: &Space,
    type_name: &str,
    id: &str,
) -> Result<Text, RawError>
    ensures ok { IfOk result (λ raw. raw ≡ raw_id kind (space_text space.now) type_name.now id.now) }
    ensures bad_type { IsErrOf result RawError.BadType ↔ (is_name_of_type type_name.now ≡ false) }
    ensures bad_id { IsErrOf result RawError.BadId ↔ ((is_name_of_type type_name.now ≡ true) × (id.now ≡ [])) }
{
    if !is_type_name(type_name) {
        return Err(RawError::BadType);
    }
    if id.is_empty() {
        return Err(RawError::BadId);
    }
    let raw = raw_text(alloc, kind, space, type_name, id)?;
    Ok(raw)
}

#[tactic(auto, unfolding(base_model::specs::Keyed::same))]
fn raw_text(
    alloc: Global,
    kind: Kind,
    space: &Space,
    type_name: &str,
    id: &str,
) -> Result<Text, AllocError>
    ensures { IfOk result (λ raw. raw ≡ raw_id kind (space_text space.now) type_name.now id.now) }
{
    let raw = match (kind, space) {
        (Kind::Single, Space::Named(space)) => {
            let space = space.as_str();
            format!(in alloc; "{space}:{type_name}:{id}")?
        }
        _ => format!(in alloc; "{type_name}:{id}")?,
    };
    Ok(Text::from_string(raw))
}
