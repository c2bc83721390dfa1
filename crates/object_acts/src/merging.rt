ghost use Rattle.std.specs.Prelude.{◌≡◌, ◌++◌, List as ItemsOf, IfOk, true};
ghost use Rattle.so_js.specs.Tree.{is_sound, are_rising, keys_of};
ghost use Rattle.so_js.specs.Printing.{members_are_sound};
ghost use Rattle.so_js.specs.declared.js.Js.{Js as Tree};
ghost use Rattle.so_js.specs.declared.js.Member.{Member as MemberOf};
ghost use Rattle.saved_doc.specs.Trees.{is_object};
ghost use Rattle.call_words.specs.Product.{with_members, merged as merged_in};
ghost use Rattle.object_acts.specs.Merging.{below_key, behind_key};

use plain_data::{List, Text};
use so_js::{Js, Member};
use std::alloc::{AllocError, Global};

/// The old attributes with the given members: each of them takes the place of the one of its key,
/// or its place in the order of keys where there is none, and all others stay. Where one of the
/// trees is no object, it is the old one.
pub fn merged(alloc: Global, old: &Js, given: &Js) -> Result<Js, AllocError>
    requires old { is_sound old.now ≡ true }
    requires given { is_sound given.now ≡ true }
    ensures value { IfOk result (λ js. js ≡ merged_in old.now given.now) }
    ensures sound { IfOk result (λ js. is_sound js ≡ true) }
    ensures object { IfOk result (λ js. is_object old.now ≡ true → is_object js ≡ true) }
{
    let Some(members) = old.as_object() else {
        return copied(old);
    };
    let Some(more) = given.as_object() else {
        return copied(old);
    };
    let all = merged_members(alloc, members, more)?;
    Ok(Js::Object(all))
}

fn copied(js: &Js) -> Result<Js, AllocError>
    ensures { IfOk result (λ copy. copy ≡ js.now) }
{
    js.clone()
}

/// Both lists of members as one, in one pass.
fn merged_members(
    alloc: Global,
    old: &List<Member>,
    given: &List<Member>,
) -> Result<List<Member>, AllocError>
    requires old { members_are_sound old.now ≡ true }
    requires given { members_are_sound given.now ≡ true }
    ensures value { IfOk result (λ all. all ≡ with_members given.now old.now) }
    ensures sound { IfOk result (λ all. members_are_sound all ≡ true) }
{
    let mut all = List::new(alloc);
    let mut rest = old.as_slice();
    for member in given.as_slice() {
        rest = copied_below(&mut all, rest, &member.key)?;
        all.push(member.clone()?)?;
    }
    let all = with_copies(all, rest)?;
    Ok(all)
}

/// Adds copies of the members below the key, and answers what follows them, without the member of
/// this key.
fn copied_below<'a>(
    all: &mut List<Member>,
    members: &'a [Member],
    key: &Text,
) -> Result<&'a [Member], AllocError>
    ensures more { IfOk result (λ _. all.new ≡ all.old ++ below_key key.now members.now) }
    ensures rest { IfOk result (λ rest. rest.now ≡ behind_key key.now members.now) }
{
    let mut at = 0;
    while at < members.len() && members[at].key < *key {
        all.push(members[at].clone()?)?;
        at += 1;
    }
    if at < members.len() && members[at].key == *key {
        at += 1;
    }
    Ok(&members[at..])
}

fn with_copies(mut all: List<Member>, members: &[Member]) -> Result<List<Member>, AllocError>
    ensures { IfOk result (λ more. more ≡ all ++ members.now) }
{
    for member in members {
        all.push(member.clone()?)?;
    }
    Ok(all)
}
