ghost use Rattle.std.specs.Prelude.{◌≡◌, ◌++◌, ◌∷◌, [], IfOk, true};
ghost use Rattle.document_model.specs.Migrations.{alias_raw as raw_of_alias};
ghost use Rattle.so_js.specs.Tree.{is_sound};
ghost use Rattle.so_js.specs.declared.js.Js.TheVariants.{Str};
ghost use Rattle.share_ids.specs.Ids.{alias_doc as doc_of_alias, alias_attributes, text_member as member_of_text};

use plain_data::{List, Text};
use saved_doc::Doc;
use so_js::{Js, Member};
use std::alloc::{AllocError, Global};
use version_token::Ver;

/// The raw id of the document that stands for the old id of an object that became shareable:
/// `legacy-url-alias:space:type:id`.
pub fn alias_raw(alloc: Global, space: &str, type_name: &str, id: &str) -> Result<Text, AllocError>
    ensures { IfOk result (λ raw. raw ≡ raw_of_alias space.now type_name.now id.now) }
{
    let raw = format!(in alloc; "legacy-url-alias:{space}:{type_name}:{id}")?;
    Ok(Text::from_string(raw))
}

/// The document that leads from the old id of an object to its new one, as the product of this
/// version writes it.
pub fn alias_doc(
    alloc: Global,
    version: Ver,
    space: &str,
    type_name: &str,
    old: &str,
    new: &str,
) -> Result<Doc, AllocError>
    ensures { IfOk result (λ doc. doc ≡ doc_of_alias version space.now type_name.now old.now new.now) }
{
    let attributes = attributes(alloc, space, type_name, old, new)?;
    let type_name = Text::from_str(alloc, "legacy-url-alias")?;
    Ok(Doc {
        type_name,
        attributes,
        references: List::new(alloc),
        namespace: None,
        namespaces: None,
        stamp: None,
        core: Some(version),
        updated_at: None,
        origin: None,
    })
}

fn attributes(
    alloc: Global,
    space: &str,
    type_name: &str,
    old: &str,
    new: &str,
) -> Result<Js, AllocError>
    ensures { IfOk result (λ js. js ≡ alias_attributes space.now type_name.now old.now new.now) }
{
    let mut members = List::new(alloc);
    members.push(text_member(alloc, "sourceId", old)?)?;
    members.push(text_member(alloc, "targetId", new)?)?;
    members.push(text_member(alloc, "targetNamespace", space)?)?;
    members.push(text_member(alloc, "targetType", type_name)?)?;
    Ok(Js::Object(members))
}

fn text_member(alloc: Global, key: &str, text: &str) -> Result<Member, AllocError>
    ensures { IfOk result (λ m. m ≡ member_of_text (key.now, text.now)) }
{
    let key = Text::from_str(alloc, key)?;
    let text = Text::from_str(alloc, text)?;
    Ok(Member {
        key,
        value: Js::Str(text),
    })
}
