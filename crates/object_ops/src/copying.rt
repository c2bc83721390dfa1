//! Copies of parts, which equal them, or are refused for want of memory.
ghost use Rattle.std.specs.Prelude.{◌≡◌, IfOk};

use call_words::{Answer, Change, NewObject, Target};
use plain_data::{List, Text};
use space_scope::Space;
use std::alloc::AllocError;

pub(crate) fn copied_answer(answer: &Answer) -> Result<Answer, AllocError>
    ensures { IfOk result (λ copy. copy ≡ answer.now) }
{
    let copy = answer.clone()?;
    Ok(copy)
}

pub(crate) fn copied_object(object: &NewObject) -> Result<NewObject, AllocError>
    ensures { IfOk result (λ copy. copy ≡ object.now) }
{
    let copy = object.clone()?;
    Ok(copy)
}

pub(crate) fn copied_change(change: &Change) -> Result<Change, AllocError>
    ensures { IfOk result (λ copy. copy ≡ change.now) }
{
    let copy = change.clone()?;
    Ok(copy)
}

pub(crate) fn copied_target(target: &Target) -> Result<Target, AllocError>
    ensures { IfOk result (λ copy. copy ≡ target.now) }
{
    let copy = target.clone()?;
    Ok(copy)
}

pub(crate) fn copied_space(space: &Space) -> Result<Space, AllocError>
    ensures { IfOk result (λ copy. copy ≡ space.now) }
{
    let copy = space.clone()?;
    Ok(copy)
}

pub(crate) fn copied_time(at: &Option<Text>) -> Result<Option<Text>, AllocError>
    ensures { IfOk result (λ copy. copy ≡ at.now) }
{
    let copy = at.clone()?;
    Ok(copy)
}

pub(crate) fn copied_texts(texts: &List<Text>) -> Result<List<Text>, AllocError>
    ensures { IfOk result (λ copy. copy ≡ texts.now) }
{
    let copy = texts.clone()?;
    Ok(copy)
}
