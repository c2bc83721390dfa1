ghost use Rattle.std.specs.Prelude.{◌≡◌, find, true, IfSome};
ghost use Rattle.std.specs.Str.{bytes_eq};
ghost use Rattle.std.specs.Option.{option_copied};
ghost use Rattle.so_js.specs.Tree.{is_sound, bool_of, whole_of, text_of, items_of, object_of, member_of};
ghost use Rattle.so_js.specs.Printing.{are_sound, members_are_sound};

use crate::js::{Js, Member};
use plain_data::{List, Text};

impl Js {
    /// The value of `true` or `false`, and `None` of another tree.
    pub fn as_bool(&self) -> Option<bool>
        ensures { result ≡ bool_of self.now }
    {
        match self {
            Js::Bool(b) => Some(*b),
            _ => None,
        }
    }

    /// The value of a whole number, and `None` of another tree.
    pub fn as_whole(&self) -> Option<i128>
        ensures { result ≡ whole_of self.now }
    {
        match self {
            Js::Whole(whole) => Some(*whole),
            _ => None,
        }
    }

    /// The text of a text, and `None` of another tree.
    pub fn as_text(&self) -> Option<&Text>
        ensures { option_copied result ≡ text_of self.now }
    {
        match self {
            Js::Str(text) => Some(text),
            _ => None,
        }
    }

    /// The items of a list, and `None` of another tree.
    pub fn as_items(&self) -> Option<&List<Js>>
        ensures value { option_copied result ≡ items_of self.now }
        ensures sound { is_sound self.now ≡ true → IfSome result (λ items. are_sound items.now ≡ true) }
    {
        match self {
            Js::Items(items) => Some(items),
            _ => None,
        }
    }

    /// The members of an object in rising order of key, and `None` of another tree.
    pub fn as_object(&self) -> Option<&List<Member>>
        ensures value { option_copied result ≡ object_of self.now }
        ensures sound { is_sound self.now ≡ true → IfSome result (λ members. members_are_sound members.now ≡ true) }
    {
        match self {
            Js::Object(members) => Some(members),
            _ => None,
        }
    }
}

/// The value of the object's member of this key. `None` where there is no such member, or the
/// tree is no object.
pub fn member<'a>(js: &'a Js, key: &str) -> Option<&'a Js>
    ensures value { option_copied result ≡ member_of key.now js.now }
    ensures sound { is_sound js.now ≡ true → IfSome result (λ value. is_sound value.now ≡ true) }
{
    match js {
        Js::Object(members) => {
            let found = named(members, key)?;
            Some(&found.value)
        }
        _ => None,
    }
}

fn named<'a>(members: &'a List<Member>, key: &str) -> Option<&'a Member>
    ensures { option_copied result ≡ find (λ m. bytes_eq m.key key.now) members.now }
{
    members.as_slice().iter().find(|m| m.key.as_str() == key)
}
