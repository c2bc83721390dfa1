ghost use Rattle.std.specs.Prelude.{◌≡◌, IfOk};

use plain_data::{List, Text};
use std::alloc::AllocError;

/// A JSON value (RFC 8259) whose numbers are whole.
///
/// It is sound where, at every depth, each whole number is from -2^63 to 2^64 - 1 and the keys of
/// each object rise strictly by bytes. A clone equals its tree, or is refused for want of memory.
#[derive(Debug, Drop)]
pub enum Js {
    Null,
    Bool(bool),
    /// A whole number, from -2^63 to 2^64 - 1.
    Whole(i128),
    Str(Text),
    /// An array, in its order.
    Items(List<Js>),
    /// An object, its keys rising by bytes, each once.
    Object(List<Member>),
}

/// A member of an object. The parameter is there for specifications alone; code names `Member`.
#[derive(Clone, Debug, Drop)]
pub struct Member<V = Js> {
    pub key: Text,
    pub value: V,
}

impl Clone for Js {
    ghost is_clone = { λ old new. new ≡ old };

    fn clone(&self) -> Result<Js, AllocError> {
        copy(self)
    }
}

#[cycle(copy)]
fn copy(js: &Js) -> Result<Js, AllocError>
    ensures { IfOk result (λ new. new ≡ js.now) }
{
    match js {
        Js::Null => Ok(Js::Null),
        Js::Bool(b) => Ok(Js::Bool(*b)),
        Js::Whole(whole) => Ok(Js::Whole(*whole)),
        Js::Str(text) => Ok(Js::Str(text.clone()?)),
        Js::Items(items) => Ok(Js::Items(copy_items(items)?)),
        Js::Object(members) => Ok(Js::Object(copy_members(members)?)),
    }
}

#[cycle(copy)]
fn copy_items(items: &List<Js>) -> Result<List<Js>, AllocError>
    ensures { IfOk result (λ new. new ≡ items.now) }
{
    let mut copies = List::new(items.alloc());
    for item in items.as_slice() {
        copies.push(copy(item)?)?;
    }
    Ok(copies)
}

#[cycle(copy)]
fn copy_members(members: &List<Member>) -> Result<List<Member>, AllocError>
    ensures { IfOk result (λ new. new ≡ members.now) }
{
    let mut copies = List::new(members.alloc());
    for member in members.as_slice() {
        let key = member.key.clone()?;
        let value = copy(&member.value)?;
        copies.push(Member { key, value })?;
    }
    Ok(copies)
}
