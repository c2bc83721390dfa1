ghost use Rattle.std.specs.Prelude.{◌≡◌, IfOk};
ghost use Rattle.document_model.specs.Documents.{lists as is_listed};
ghost use Rattle.call_model.specs.Acts.{added as added_to, taken_away as taken_from, is_wide as lies_wide, or_no_space};

use plain_data::{List, Text};
use std::alloc::{AllocError, Global};

/// The spaces that a document is left in: those that aren't yet listed are added at the end, one
/// after another, and then those to remove are taken away.
pub(crate) fn shared(
    alloc: Global,
    add: &List<Text>,
    remove: &List<Text>,
    namespaces: &Option<List<Text>>,
) -> Result<List<Text>, AllocError>
    ensures { IfOk result (λ left. left ≡ taken_from remove.now (added_to add.now (or_no_space namespaces.now))) }
{
    let spaces = spaces_of(alloc, namespaces)?;
    let all = added(add, spaces)?;
    let left = taken_away(alloc, remove, &all)?;
    Ok(left)
}

/// A copy of the list, and no space where there is none.
pub(crate) fn spaces_of(
    alloc: Global,
    namespaces: &Option<List<Text>>,
) -> Result<List<Text>, AllocError>
    ensures { IfOk result (λ spaces. spaces ≡ or_no_space namespaces.now) }
{
    match namespaces {
        Some(spaces) => {
            let copy = spaces.clone()?;
            Ok(copy)
        }
        None => Ok(List::new(alloc)),
    }
}

fn added(add: &List<Text>, spaces: List<Text>) -> Result<List<Text>, AllocError>
    ensures { IfOk result (λ all. all ≡ added_to add.now spaces) }
{
    let mut all = spaces;
    for space in add.as_slice() {
        if !lists(&all, space.as_str()) {
            all.push(space.clone()?)?;
        }
    }
    Ok(all)
}

fn taken_away(
    alloc: Global,
    remove: &List<Text>,
    spaces: &List<Text>,
) -> Result<List<Text>, AllocError>
    ensures { IfOk result (λ left. left ≡ taken_from remove.now spaces.now) }
{
    let mut left = List::new(alloc);
    for space in spaces.as_slice() {
        if !lists(remove, space.as_str()) {
            left.push(space.clone()?)?;
        }
    }
    Ok(left)
}

/// Whether a document lies in several spaces, or in all.
pub(crate) fn is_wide(namespaces: &Option<List<Text>>) -> bool
    ensures { result ≡ lies_wide namespaces.now }
{
    match namespaces {
        Some(spaces) => spaces.len() > 1 || lists(spaces, "*"),
        None => false,
    }
}

#[tactic(auto, unfolding(document_model::specs::Documents::lists, base_model::specs::Keyed::same))]
fn lists(texts: &List<Text>, text: &str) -> bool
    ensures { result ≡ is_listed text.now texts.now }
{
    for other in texts.as_slice() {
        if text == other.as_str() {
            return true;
        }
    }
    false
}
