ghost use Rattle.std.specs.Prelude.{◌≡◌, IfOk, true, false};
ghost use Rattle.document_model.specs.Registries.{known, too_new};
ghost use Rattle.so_js.specs.Tree.{is_sound};
ghost use Rattle.saved_doc.specs.Trees.{is_object};
ghost use Rattle.call_model.specs.Acts.{lifted as lifted_by, latest_of, stamp_too_new};
ghost use Rattle.call_words.specs.Mapped.{given_of};
ghost use Rattle.call_words.specs.Product.{product_words};
ghost use Rattle.object_acts.specs.Lifting.{lifted_from};

use call_words::{Attributes, Given};
use doc_transform::{Lifted, lift};
use so_js::Js;
use std::alloc::{AllocError, Global};
use type_registry::Registry;
use version_token::Ver;

/// The attributes of a new object of this type: where they were given with a stamp, the operations
/// of the versions above it are done.
pub(crate) fn lifted(
    alloc: Global,
    reg: &Registry,
    type_name: &str,
    given: Given,
    attributes: &Attributes,
) -> Result<Js, AllocError>
    requires { stamp_too_new (known reg.now type_name.now) (given_of given) ≡ false }
    ensures value { IfOk result (λ js. js ≡ lifted_by product_words (known reg.now type_name.now) (given_of given) attributes.now) }
    ensures sound { IfOk result (λ js. is_sound js ≡ true) }
    ensures object { IfOk result (λ js. is_object js ≡ true) }
{
    let js = tree_of(attributes)?;
    match given {
        Given::Latest => Ok(js),
        Given::All => lifted_above(alloc, reg, type_name, None, js),
        Given::Above(stamp) => lifted_above(alloc, reg, type_name, Some(stamp), js),
    }
}

fn tree_of(attributes: &Attributes) -> Result<Js, AllocError>
    ensures value { IfOk result (λ js. js ≡ attributes.now) }
    ensures sound { IfOk result (λ js. is_sound js ≡ true) }
    ensures object { IfOk result (λ js. is_object js ≡ true) }
{
    let js = attributes.as_js().clone()?;
    Ok(js)
}

fn lifted_above(
    alloc: Global,
    reg: &Registry,
    type_name: &str,
    stamp: Option<Ver>,
    js: Js,
) -> Result<Js, AllocError>
    requires sound { is_sound js ≡ true }
    requires object { is_object js ≡ true }
    requires stamp { too_new stamp (latest_of (known reg.now type_name.now)) ≡ false }
    ensures value { IfOk result (λ lifted. lifted ≡ lifted_from stamp (known reg.now type_name.now) js) }
    ensures sound { IfOk result (λ lifted. is_sound lifted ≡ true) }
    ensures object { IfOk result (λ lifted. is_object lifted ≡ true) }
{
    match lift(alloc, reg, type_name, stamp, js)? {
        Lifted::Attributes(lifted) => Ok(lifted),
        Lifted::TooNew => unreachable!(),
    }
}
