//! Copies of parts, which equal them, or are refused for want of memory.
ghost use Rattle.std.specs.Prelude.{◌≡◌, IfOk};

use document_model::Ref;
use plain_data::{List, Text};
use query_model::Target;
use std::alloc::AllocError;

pub(crate) fn copied_references(references: &List<Ref>) -> Result<List<Ref>, AllocError>
    ensures { IfOk result (λ copy. copy ≡ references.now) }
{
    let copy = references.clone()?;
    Ok(copy)
}

pub(crate) fn copied_spaces(spaces: &Option<List<Text>>) -> Result<Option<List<Text>>, AllocError>
    ensures { IfOk result (λ copy. copy ≡ spaces.now) }
{
    let copy = spaces.clone()?;
    Ok(copy)
}

pub(crate) fn copied_texts(texts: &List<Text>) -> Result<List<Text>, AllocError>
    ensures { IfOk result (λ copy. copy ≡ texts.now) }
{
    let copy = texts.clone()?;
    Ok(copy)
}

pub(crate) fn copied_text(text: &Option<Text>) -> Result<Option<Text>, AllocError>
    ensures { IfOk result (λ copy. copy ≡ text.now) }
{
    let copy = text.clone()?;
    Ok(copy)
}

pub(crate) fn copied_target(target: &Option<Target>) -> Result<Option<Target>, AllocError>
    ensures { IfOk result (λ copy. copy ≡ target.now) }
{
    let copy = target.clone()?;
    Ok(copy)
}
