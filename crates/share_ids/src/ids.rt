ghost use Rattle.std.specs.Prelude.{◌≡◌, IfOk, string_bytes};
ghost use Rattle.uuid.specs.Text.{hyphenated_text, lower};
ghost use Rattle.share_ids.specs.Ids.{id_of_name, new_id as id_of_object};

use plain_data::Text;
use std::alloc::{AllocError, Global};
use uuid::Uuid;

/// The id that an object of this space, type and old id gets when its type becomes shareable: the
/// hyphenated lower-case text of the UUID version 5 of RFC 9562 of `space:type:id` under the
/// namespace 6ba7b810-9dad-11d1-80b4-00c04fd430c8.
pub fn new_id(alloc: Global, space: &str, type_name: &str, id: &str) -> Result<Text, AllocError>
    ensures { IfOk result (λ text. text ≡ id_of_object space.now type_name.now id.now) }
{
    let name = format!(in alloc; "{space}:{type_name}:{id}")?;
    let text = id_of(alloc, &name)?;
    Ok(text)
}

/// The text of the UUID version 5 of this name.
pub(crate) fn id_of(alloc: Global, name: &str) -> Result<Text, AllocError>
    ensures { IfOk result (λ text. text ≡ id_of_name name.now) }
{
    let id = Uuid::new_v5(&Uuid::NAMESPACE_DNS, name.as_bytes());
    let text = text_of(alloc, id)?;
    Ok(Text::from_string(text))
}

fn text_of(alloc: Global, id: Uuid) -> Result<String, AllocError>
    ensures { IfOk result (λ text. string_bytes text ≡ hyphenated_text lower id) }
{
    let mut buffer = Uuid::encode_buffer();
    let text = id.hyphenated().encode_lower(&mut buffer);
    String::from_str(alloc, text)
}
