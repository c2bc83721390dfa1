ghost use Rattle.std.specs.Prelude.{◌≡◌, IfOk, true, is_some};
ghost use Rattle.std.specs.List.{list_all};
ghost use Rattle.document_model.specs.Migrations.{all_ops};
ghost use Rattle.document_model.specs.Registries.{known};
ghost use Rattle.so_js.specs.Tree.{is_sound, object_of};
ghost use Rattle.saved_doc.specs.Trees.{is_object};
ghost use Rattle.transform_ops.specs.Effects.{op_is_sound};
ghost use Rattle.doc_transform.specs.Transforming.{effects, attributes_of, lifted, lifted_is_sound};

use crate::ids::is_too_new;
use crate::outcome::Lifted;
use plain_data::List;
use so_js::Js;
use std::alloc::{AllocError, Global};
use transform_ops::{Op, apply};
use type_registry::Registry;
use version_token::Ver;

/// Attributes as the latest version of their type has them: the operations of the versions above
/// the stamp are done in rising order, all of them where there is no stamp, and no id changes.
///
/// `TooNew` exactly where there is a stamp and it is above the latest version, or the type has no
/// latest version: it has neither a migration nor a version at which its objects became shareable,
/// or it isn't known, or it was removed. `Attributes` in every other case. Those of a type that
/// isn't known, given without a stamp, stay as they are; and so do those whose stamp is the latest
/// version. The lifted tree is an object exactly where the given one is.
///
/// Want of memory may come at any place; the given tree is then dropped.
pub fn lift(
    alloc: Global,
    reg: &Registry,
    type_name: &str,
    stamp: Option<Ver>,
    attributes: Js,
) -> Result<Lifted, AllocError>
    requires { is_sound attributes ≡ true }
    ensures value { IfOk result (λ l. attributes_of l ≡ lifted (known reg.now type_name.now) stamp attributes) }
    ensures sound { IfOk result (λ l. lifted_is_sound attributes (attributes_of l)) }
{
    if is_too_new(stamp, reg.latest_of(type_name)) {
        return Ok(Lifted::TooNew);
    }
    let ops = reg.ops_above(alloc, type_name, stamp)?;
    let attributes = apply_all(alloc, &ops, attributes)?;
    Ok(Lifted::Attributes(attributes))
}

/// The operations one after another.
fn apply_all(alloc: Global, ops: &List<Op>, attributes: Js) -> Result<Js, AllocError>
    requires ops { list_all op_is_sound ops.now ≡ true }
    requires attributes { is_sound attributes ≡ true }
    ensures value { IfOk result (λ js. js ≡ all_ops effects ops.now attributes) }
    ensures sound { IfOk result (λ js. is_sound js ≡ true) }
    ensures object { IfOk result (λ js. is_some (object_of js) ≡ is_some (object_of attributes)) }
{
    let mut lifted = attributes;
    for op in ops.as_slice() {
        lifted = apply(alloc, op, lifted)?;
    }
    Ok(lifted)
}

/// The operations one after another, on an object.
pub(crate) fn apply_to_object(
    alloc: Global,
    ops: &List<Op>,
    attributes: Js,
) -> Result<Js, AllocError>
    requires ops { list_all op_is_sound ops.now ≡ true }
    requires attributes { is_sound attributes ≡ true }
    requires object { is_object attributes ≡ true }
    ensures value { IfOk result (λ js. js ≡ all_ops effects ops.now attributes) }
    ensures sound { IfOk result (λ js. is_sound js ≡ true) }
    ensures object { IfOk result (λ js. is_object js ≡ true) }
{
    let lifted = apply_all(alloc, ops, attributes)?;
    Ok(lifted)
}
