ghost use Rattle.std.specs.Prelude.{◌≡◌, ℕ, IfOk, Some};
ghost use Rattle.std.specs.Option.{option_copied};
ghost use Rattle.base_model.specs.Keyed.{same};
ghost use Rattle.document_model.specs.Registries.{alias_type};
ghost use Rattle.call_model.specs.Steps.{alias_target as target_in, target_over};
ghost use Rattle.call_words.specs.Product.{product_words, text_at as text_in};

use plain_data::Text;
use query_model::Target;
use saved_doc::Doc;
use so_js::{Js, member};
use std::alloc::AllocError;

/// The object that an alias document leads to. `None` where the document is of another type, or its
/// attributes have no text `targetType` or no text `targetId`.
#[tactic(auto, unfolding(call_model::specs::Steps::alias_target, base_model::specs::Keyed::same))]
pub fn alias_target(doc: &Doc) -> Result<Option<Target>, AllocError>
    ensures { (seq : ℕ) → IfOk result (λ t. t ≡ target_in product_words (Some (record { seq = seq; doc = doc.now }))) }
{
    if !is_alias(doc) {
        return Ok(None);
    }
    let type_name = text_at(doc.attributes(), "targetType");
    let id = text_at(doc.attributes(), "targetId");
    let target = both(type_name, id)?;
    Ok(target)
}

#[tactic(auto, unfolding(base_model::specs::Keyed::same))]
fn is_alias(doc: &Doc) -> bool
    ensures { result ≡ same doc.now.type_name alias_type }
{
    doc.type_name() == "legacy-url-alias"
}

/// The text under a key. Takes no memory.
pub fn text_at<'a>(attributes: &'a Js, key: &str) -> Option<&'a Text>
    ensures { option_copied result ≡ text_in key.now attributes.now }
{
    member(attributes, key)?.as_text()
}

fn both(type_name: Option<&Text>, id: Option<&Text>) -> Result<Option<Target>, AllocError>
    ensures { IfOk result (λ t. t ≡ target_over (option_copied type_name.entry) (option_copied id.entry)) }
{
    match (type_name, id) {
        (Some(type_name), Some(id)) => {
            let type_name = type_name.clone()?;
            let id = id.clone()?;
            Ok(Some(Target { type_name, id }))
        }
        _ => Ok(None),
    }
}
