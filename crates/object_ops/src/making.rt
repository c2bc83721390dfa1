//! The acts of a call that changes objects.
ghost use Rattle.std.specs.Prelude.{◌≡◌, ◌∷◌, [], IfOk, map};
ghost use Rattle.call_model.specs.Calls.Act.{Create, Update, Delete, Share};
ghost use Rattle.call_model.specs.Steps.{creates};
ghost use Rattle.call_words.specs.Mapped.{new_object_of, change_of};
ghost use Rattle.object_acts.specs.Mapped.{act_of};
ghost use Rattle.object_acts.specs.declared.acts.Act.TheVariants as act;

use crate::copying::{copied_change, copied_object, copied_target, copied_texts, copied_time};
use call_words::{Change, NewObject, Target};
use object_acts::Act;
use plain_data::{List, Text};
use std::alloc::{AllocError, Global};

/// The creates of a bulkCreate, in their order.
pub(crate) fn creates_of(
    alloc: Global,
    objects: &List<NewObject>,
    overwrite: bool,
    at: &Option<Text>,
) -> Result<List<Act>, AllocError>
    ensures { IfOk result (λ acts. map act_of acts ≡ creates overwrite at.now (map new_object_of objects.now)) }
{
    let acts = all_creates(alloc, objects, overwrite, at)?;
    Ok(acts)
}

fn all_creates(
    alloc: Global,
    objects: &List<NewObject>,
    overwrite: bool,
    at: &Option<Text>,
) -> Result<List<Act>, AllocError>
    ensures { IfOk result (λ acts. acts ≡ map (λ object. act.Create object overwrite at.now) objects.now) }
{
    let mut acts = List::new(alloc);
    for object in objects.as_slice() {
        let act = create_of(object, overwrite, at)?;
        acts.push(act)?;
    }
    Ok(acts)
}

fn create_of(object: &NewObject, overwrite: bool, at: &Option<Text>) -> Result<Act, AllocError>
    ensures { IfOk result (λ made. made ≡ act.Create object.now overwrite at.now) }
{
    let at = copied_time(at)?;
    let object = copied_object(object)?;
    Ok(Act::Create {
        object,
        overwrite,
        at,
    })
}

/// The one act of a create.
pub(crate) fn one_create(
    alloc: Global,
    object: &NewObject,
    overwrite: bool,
    at: &Option<Text>,
) -> Result<List<Act>, AllocError>
    ensures { IfOk result (λ acts. map act_of acts ≡ Create (new_object_of object.now) overwrite at.now ∷ []) }
{
    let act = create_of(object, overwrite, at)?;
    alone(alloc, act)
}

/// The one act of an update.
pub(crate) fn one_update(
    alloc: Global,
    change: &Change,
    at: &Option<Text>,
) -> Result<List<Act>, AllocError>
    ensures { IfOk result (λ acts. map act_of acts ≡ Update (change_of change.now) at.now ∷ []) }
{
    let at = copied_time(at)?;
    let change = copied_change(change)?;
    alone(alloc, Act::Update { change, at })
}

/// The one act of a delete.
pub(crate) fn one_delete(
    alloc: Global,
    target: &Target,
    force: bool,
) -> Result<List<Act>, AllocError>
    ensures { IfOk result (λ acts. map act_of acts ≡ Delete target.now force ∷ []) }
{
    let target = copied_target(target)?;
    alone(alloc, Act::Delete { target, force })
}

/// The one act of a share.
pub(crate) fn one_share(
    alloc: Global,
    target: &Target,
    add: &List<Text>,
    remove: &List<Text>,
    at: &Option<Text>,
) -> Result<List<Act>, AllocError>
    ensures { IfOk result (λ acts. map act_of acts ≡ Share target.now add.now remove.now at.now ∷ []) }
{
    let at = copied_time(at)?;
    let add = copied_texts(add)?;
    let remove = copied_texts(remove)?;
    let target = copied_target(target)?;
    alone(
        alloc,
        Act::Share {
            target,
            add,
            remove,
            at,
        },
    )
}

fn alone(alloc: Global, act: Act) -> Result<List<Act>, AllocError>
    ensures { IfOk result (λ acts. acts ≡ act ∷ []) }
{
    let mut acts = List::new(alloc);
    acts.push(act)?;
    Ok(acts)
}
