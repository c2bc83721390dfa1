ghost use Rattle.std.specs.Prelude.{◌≡◌, ℕ, ◌≤◌, IfOk, OnOk, IsUtf8, true, string_bytes};
ghost use Rattle.serde_json.specs.Data.{array, object};
ghost use Rattle.serde_json.specs.Events.{SendsValue};
ghost use Rattle.serde_json.specs.Written.{compact_text};
ghost use Rattle.so_js.specs.Reading.{tree_in};
ghost use Rattle.so_js.specs.Tree.{depth_of, data_of, is_sound};
ghost use Rattle.so_js.specs.Printing.{data_items, data_members};

use crate::js::{Js, Member};
use plain_data::List;
use serde::{Described, Serialize, Serializer};
use std::alloc::{AllocError, Global};

/// The compact text of a tree: no blanks, and the members of an object in their order, which is
/// rising by key.
///
/// `parse` reads it as the tree again where lists and objects nest no deeper than 127.
pub fn print(alloc: Global, js: &Js) -> Result<List<u8>, AllocError>
    requires { is_sound js.now ≡ true }
    ensures text { IfOk result (λ bytes. bytes ≡ compact_text (data_of js.now)) }
    ensures reads_back { IfOk result (λ bytes. (limit : ℕ) → depth_of js.now ≤ limit → limit ≤ 127
        → tree_in limit bytes ≡ Ok js.now) }
{
    // The writer refuses a sound tree for want of memory alone.
    match serde_json::to_string(alloc, js) {
        Ok(text) => Ok(bytes_of(text)),
        Err(_) => Err(AllocError),
    }
}

fn bytes_of(text: String) -> List<u8>
    ensures bytes { result ≡ string_bytes text }
    ensures utf8 { IsUtf8 result }
{
    List::from_vec(text.into_bytes())
}

impl Described for Js {
    ghost writes = { λ js. SendsValue (data_of js) };
}

impl Serialize for Js {
    fn serialize<S: Serializer>(&self, out: &mut S) -> Result<(), S::Error> {
        send(self, out)
    }
}

#[cycle(send)]
fn send<S: Serializer>(js: &Js, out: &mut S) -> Result<(), S::Error>
    ensures { OnOk result (SendsValue (data_of js.now) (S.written out.old) (S.written out.new)) }
{
    match js {
        Js::Null => out.unit(),
        Js::Bool(b) => out.bool(*b),
        Js::Whole(whole) => if *whole < 0 {
            out.i128(*whole)
        } else {
            out.u128(*whole as u128)
        },
        Js::Str(text) => out.str(text.as_str()),
        Js::Items(items) => send_items(items, out),
        Js::Object(members) => send_members(members, out),
    }
}

#[cycle(send)]
fn send_items<S: Serializer>(items: &List<Js>, out: &mut S) -> Result<(), S::Error>
    ensures { OnOk result (SendsValue (array (data_items items.now))
        (S.written out.old) (S.written out.new)) }
{
    out.begin_seq(Some(items.len()))?;
    for item in items.as_slice() {
        send(item, out)?;
    }
    out.end_seq()
}

#[cycle(send)]
fn send_members<S: Serializer>(members: &List<Member>, out: &mut S) -> Result<(), S::Error>
    ensures { OnOk result (SendsValue (object (data_members members.now))
        (S.written out.old) (S.written out.new)) }
{
    out.begin_map(Some(members.len()))?;
    for member in members.as_slice() {
        out.key(member.key.as_str())?;
        send(&member.value, out)?;
    }
    out.end_map()
}
