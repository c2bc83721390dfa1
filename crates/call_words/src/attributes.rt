ghost use Rattle.std.specs.Prelude.{◌≡◌, true, Some, None, if◌then◌else◌};
ghost use Rattle.so_js.specs.Tree.{is_sound};
ghost use Rattle.saved_doc.specs.Trees.{is_object};

use so_js::Js;
use std::alloc::AllocError;
use std::marker::Model;

/// The attributes of an object: a sound tree that is an object, which contracts see as the tree.
/// A clone equals its attributes, or is refused for want of memory.
#[derive(Debug, Drop)]
pub struct Attributes {
    js: Js,
}

impl Model for Attributes {
    ghost use Rattle.std.specs.Prelude.{◌≡◌, true};
    ghost use Rattle.so_js.specs.declared.js.Js.{Js};
    ghost use Rattle.so_js.specs.Tree.{is_sound};
    ghost use Rattle.so_js.specs.Code.{js_code};
    ghost use Rattle.saved_doc.specs.Trees.{is_object};

    ghost Value = { Js };

    ghost coded = { js_code };

    ghost view = { λ a. a.js };

    ghost invariant = { λ a. (is_sound a.js ≡ true) × (is_object a.js ≡ true) };
}

impl Attributes {
    /// The attributes that a sound tree is. `None` exactly where it is no object. Takes no memory.
    pub fn read(js: Js) -> Option<Attributes>
        requires { is_sound js ≡ true }
        ensures { result ≡ (if is_object js then Some js else None) }
    {
        match js {
            Js::Object(members) => Some(Attributes {
                js: Js::Object(members),
            }),
            _ => None,
        }
    }

    /// The attributes that a sound object is. Takes no memory.
    pub fn new(js: Js) -> Attributes
        requires sound { is_sound js ≡ true }
        requires object { is_object js ≡ true }
        ensures { result ≡ js }
    {
        Attributes { js }
    }

    /// The tree. Takes no memory.
    pub fn as_js(&self) -> &Js
        ensures value { result.now ≡ self.now }
        ensures sound { is_sound self.now ≡ true }
        ensures object { is_object self.now ≡ true }
    {
        &self.js
    }

    /// The tree. Takes no memory.
    pub fn into_js(self) -> Js
        ensures value { result ≡ self }
        ensures sound { is_sound self ≡ true }
        ensures object { is_object self ≡ true }
    {
        let Attributes { js } = self;
        js
    }
}

impl Clone for Attributes {
    ghost is_clone = { λ old new. new ≡ old };

    fn clone(&self) -> Result<Attributes, AllocError> {
        Ok(Attributes {
            js: self.js.clone()?,
        })
    }
}
