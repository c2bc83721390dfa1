//! Copies of acts and their parts, which equal them, or are refused for want of memory.
ghost use Rattle.std.specs.Prelude.{◌≡◌, IfOk};

use call_words::{Change, NewObject, Target};
use object_acts::Act;
use plain_data::{List, Text};
use std::alloc::AllocError;

pub(crate) fn copied_act(act: &Act) -> Result<Act, AllocError>
    ensures { IfOk result (λ copy. copy ≡ act.now) }
{
    match act {
        Act::Create {
            object,
            overwrite,
            at,
        } => Ok(Act::Create {
            object: copied_object(object)?,
            overwrite: *overwrite,
            at: copied_text(at)?,
        }),
        Act::Update { change, at } => Ok(Act::Update {
            change: copied_change(change)?,
            at: copied_text(at)?,
        }),
        Act::Delete { target, force } => Ok(Act::Delete {
            target: copied_target(target)?,
            force: *force,
        }),
        Act::Share {
            target,
            add,
            remove,
            at,
        } => Ok(Act::Share {
            target: copied_target(target)?,
            add: copied_texts(add)?,
            remove: copied_texts(remove)?,
            at: copied_text(at)?,
        }),
    }
}

fn copied_object(object: &NewObject) -> Result<NewObject, AllocError>
    ensures { IfOk result (λ copy. copy ≡ object.now) }
{
    let copy = object.clone()?;
    Ok(copy)
}

fn copied_change(change: &Change) -> Result<Change, AllocError>
    ensures { IfOk result (λ copy. copy ≡ change.now) }
{
    let copy = change.clone()?;
    Ok(copy)
}

fn copied_target(target: &Target) -> Result<Target, AllocError>
    ensures { IfOk result (λ copy. copy ≡ target.now) }
{
    let copy = target.clone()?;
    Ok(copy)
}

fn copied_texts(texts: &List<Text>) -> Result<List<Text>, AllocError>
    ensures { IfOk result (λ copy. copy ≡ texts.now) }
{
    let copy = texts.clone()?;
    Ok(copy)
}

fn copied_text(text: &Option<Text>) -> Result<Option<Text>, AllocError>
    ensures { IfOk result (λ copy. copy ≡ text.now) }
{
    let copy = text.clone()?;
    Ok(copy)
}
