ghost use Rattle.std.specs.Prelude.{◌≡◌, ◌≤◌, ◌<◌, length, insert, find, is_some, OnOk, IfSome, None};
ghost use Rattle.std.specs.Option.{option_copied};
ghost use Rattle.transform_ops.specs.Attributes.{named, value_at, without, placed, place_among, place_at};

use plain_data::{List, Text};
use so_js::{Js, Member};
use std::alloc::AllocError;

/// The value of the member of this key.
pub fn value_of<'a>(members: &'a List<Member>, key: &Text) -> Option<&'a Js>
    ensures { option_copied result ≡ value_at key.now members.now }
{
    let found = members
        .as_slice()
        .iter()
        .find(|m| m.key.as_str() == key.as_str())?;
    Some(&found.value)
}

/// Whether there is a member of this key.
pub fn has(members: &List<Member>, key: &Text) -> bool
    ensures { result ≡ is_some (value_at key.now members.now) }
{
    value_of(members, key).is_some()
}

/// Takes the member of this key out, and answers its value. `None` where there is no such member.
pub fn taken(members: &mut List<Member>, key: &Text) -> Option<Js>
    ensures value { result ≡ value_at key.now members.old }
    ensures rest { members.new ≡ without key.now members.old }
    ensures same { result ≡ None → members.new ≡ members.old }
{
    match place_in(members, key) {
        Some(at) => {
            let member = members.remove(at);
            Some(member.value)
        }
        None => None,
    }
}

fn place_in(members: &List<Member>, key: &Text) -> Option<usize>
    ensures place { result ≡ place_at key.now members.now }
    ensures within { IfSome result (λ at. at < length members.now) }
{
    for (place, member) in members.as_slice().iter().enumerate() {
        if member.key.as_str() == key.as_str() {
            return Some(place);
        }
    }
    None
}

/// Puts a member before the first one whose key is above its own.
pub fn place(members: &mut List<Member>, key: &Text, value: Js) -> Result<(), AllocError>
    ensures { OnOk result (members.new ≡ placed (named key.now value) members.old) }
{
    let key = key.clone()?;
    let at = place_of(members, &key);
    members.insert(at, Member { key, value })
}

fn place_of(members: &List<Member>, key: &Text) -> usize
    ensures place { result ≡ place_among key.now members.now }
    ensures within { result ≤ length members.now }
{
    for (place, other) in members.as_slice().iter().enumerate() {
        if *key < other.key {
            return place;
        }
    }
    members.len()
}
