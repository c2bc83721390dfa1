ghost use Rattle.std.specs.Prelude.{◌≡◌, ◌≤◌, [], length, IfOk, OnErr};
ghost use Rattle.std.specs.Vec.{vec_capacity};
ghost use Rattle.store_core.specs.Copies.{writes_in, results_in, IsRead};

use plain_data::List;
use std::alloc::{AllocError, Global};
use store_words::{Item, Reply, Request, Write};

/// Room for the results of a request's writes.
pub fn room_for(alloc: Global, request: &Request) -> Result<Vec<Item>, AllocError>
    ensures empty { IfOk result (λ room. room.items ≡ []) }
    ensures room { IfOk result (λ room. writes_in request.now ≤ vec_capacity room) }
{
    match request {
        Request::Bulk { items, .. } => Vec::with_capacity(alloc, items.len()),
        _ => Ok(Vec::new(alloc)),
    }
}

/// A copy of a reply, its results in the room for them.
///
/// Only the copy of a reply that comes with no change of the store takes memory.
pub fn copy_of(reply: &Reply, room: Vec<Item>) -> Result<Reply, AllocError>
    requires empty { room.items ≡ [] }
    requires room { results_in reply.now ≤ vec_capacity room }
    ensures ok { IfOk result (λ copy. copy ≡ reply.now) }
    ensures err { OnErr result (IsRead reply.now) }
{
    match reply {
        Reply::Done => Ok(Reply::Done),
        Reply::Pit(number) => Ok(Reply::Pit(*number)),
        Reply::Items(items) => Ok(Reply::Items(copied(room, items))),
        Reply::State { .. } | Reply::Rows(_) | Reply::Found(_) | Reply::Refused(_) => reply.clone(),
    }
}

/// A copy of the results in the room for them. Takes no memory.
fn copied(room: Vec<Item>, items: &List<Item>) -> List<Item>
    requires empty { room.items ≡ [] }
    requires room { length items.now ≤ vec_capacity room }
    ensures { result ≡ items.now }
{
    let mut copy = room;
    for item in items.as_slice() {
        copy.push_reserved(*item);
    }
    List::from_vec(copy)
}

/// Copies of writes, which share their documents.
pub fn writes_copy(writes: &List<Write>) -> Result<List<Write>, AllocError>
    ensures { IfOk result (λ copy. copy ≡ writes.now) }
{
    let mut copies = List::new(writes.alloc());
    for write in writes.as_slice() {
        copies.push(write_copy(write)?)?;
    }
    Ok(copies)
}

fn write_copy(write: &Write) -> Result<Write, AllocError>
    ensures { IfOk result (λ copy. copy ≡ write.now) }
{
    write.clone()
}
