ghost use Rattle.std.specs.Prelude.{◌≡◌, ℕ, map, option_map};
ghost use Rattle.std.specs.Option.{option_copied};
ghost use Rattle.race_model.specs.Stores.Reply.{Done as done, Seen as seen, Pit as pit, Selected as page, Found as found, Items as results};
ghost use Rattle.race_model.specs.Stores.Item.{Conflict as conflict};
ghost use Rattle.race_model.specs.Replies.{fits_reply as fits, fits_refusal as refuses, fits_item as has_result, fits_items as have_results, fits_found as is_row, fits_all_found as are_rows, is_other as differs, within, rising};
ghost use Rattle.alias_table.specs.Plans.{keyed_of};
ghost use Rattle.doc_query.specs.Mapped.{cell_of, cells_of};
ghost use Rattle.doc_table.specs.Tables.{item_of, write_of};
ghost use Rattle.store_words.specs.Names.{is_next};
ghost use Rattle.store_words.specs.Words.{request_of, reply_of, refusal_of, all_seen, take_of};

use crate::refusal::Refusal;
use crate::reply::{IndexSeen, Reply};
use crate::request::Request;
use alias_table::Pair;
use doc_query::Selected;
use doc_table::{Item, Row, Write};
use plain_data::{List, Text};
use text_order::is_below;

/// Whether the reply is one that the request can have. Takes no memory.
///
/// The request's kind has replies of that form. Items have one item for each write, with a result
/// that this write can have. Found has a row or none for each raw id, with that raw id. State has
/// its names in rising order. Rows has at most `take` rows. Names and numbers within a refusal are
/// free.
pub fn fits_reply(request: &Request, reply: &Reply) -> bool
    ensures { result ≡ fits take_of (request_of request.now) (reply_of reply.now) }
{
    match reply {
        Reply::Done => may_be_done(request),
        Reply::State { indices, aliases } => fits_state(request, indices, aliases),
        Reply::Pit(_) => opens_pit(request),
        Reply::Rows(selected) => fits_page(request, selected),
        Reply::Found(rows) => fits_found(request, rows),
        Reply::Items(items) => fits_items(request, items),
        Reply::Refused(refusal) => fits_refusal(request, refusal),
    }
}

fn may_be_done(request: &Request) -> bool
    ensures { result ≡ fits take_of (request_of request.now) done }
{
    match request {
        Request::Ping
        | Request::Create { .. }
        | Request::Block { .. }
        | Request::Clone { .. }
        | Request::ClosePit { .. }
        | Request::Aliases { .. } => true,
        _ => false,
    }
}

fn opens_pit(request: &Request) -> bool
    ensures { (n : ℕ) → result ≡ fits take_of (request_of request.now) (pit n) }
{
    matches!(request, Request::OpenPit { .. })
}

fn fits_state(request: &Request, indices: &List<IndexSeen>, aliases: &List<Pair>) -> bool
    ensures { result ≡ fits take_of (request_of request.now) (seen (all_seen indices.now) (keyed_of aliases.now)) }
{
    match request {
        Request::State => indices_rise(indices) && aliases_rise(aliases),
        _ => false,
    }
}

fn fits_page(request: &Request, selected: &Selected) -> bool
    ensures { result ≡ fits take_of (request_of request.now) (page selected.now.total (cells_of selected.now.rows)) }
{
    match request {
        Request::ReadPit { query, .. } | Request::Search { query, .. } => {
            is_within(query.take, selected.rows.len())
        }
        _ => false,
    }
}

fn fits_found(request: &Request, rows: &List<Option<Row>>) -> bool
    ensures { result ≡ fits take_of (request_of request.now) (found (map (option_map cell_of) rows.now)) }
{
    match request {
        Request::Get { raws, .. } => are_found(raws.as_slice(), rows.as_slice()),
        _ => false,
    }
}

fn fits_items(request: &Request, items: &List<Item>) -> bool
    ensures { result ≡ fits take_of (request_of request.now) (results (map item_of items.now)) }
{
    match request {
        Request::Bulk { items: writes, .. } => are_results(writes.as_slice(), items.as_slice()),
        _ => false,
    }
}

fn fits_refusal(request: &Request, refusal: &Refusal) -> bool
    ensures { result ≡ refuses (request_of request.now) (refusal_of refusal.now) }
{
    match request {
        Request::Ping | Request::State => false,
        Request::Create { .. } => {
            matches!(refusal, Refusal::Exists { .. } | Refusal::NameTaken(_))
        }
        Request::Clone { .. } => matches!(
            refusal,
            Refusal::Exists { .. }
                | Refusal::NameTaken(_)
                | Refusal::NoIndex(_)
                | Refusal::NotBlocked(_)
        ),
        Request::Block { .. }
        | Request::OpenPit { .. }
        | Request::Get { .. }
        | Request::Search { .. } => matches!(refusal, Refusal::NoIndex(_)),
        Request::ReadPit { .. } | Request::ClosePit { .. } => {
            matches!(refusal, Refusal::NoPit(_))
        }
        Request::Bulk { .. } => matches!(refusal, Refusal::NoIndex(_) | Refusal::Blocked(_)),
        Request::Aliases { .. } => matches!(
            refusal,
            Refusal::AliasMissing { .. }
                | Refusal::AliasTaken { .. }
                | Refusal::NoIndex(_)
                | Refusal::NameTaken(_)
        ),
    }
}

fn is_within(most: Option<u64>, count: usize) -> bool
    ensures { result ≡ within most count }
{
    match most {
        Some(most) => count as u64 <= most,
        None => true,
    }
}

/// Whether the names of the indices rise.
#[tactic(auto, unfolding(race_model::specs::Replies::rising_from))]
fn indices_rise(indices: &List<IndexSeen>) -> bool
    ensures { result ≡ rising (all_seen indices.now) }
{
    let mut last = None;
    for index in indices.as_slice() {
        if !comes_after(last, &index.name) {
            return false;
        }
        last = Some(&index.name);
    }
    true
}

/// Whether the names of the aliases rise.
#[tactic(auto, unfolding(race_model::specs::Replies::rising_from))]
fn aliases_rise(aliases: &List<Pair>) -> bool
    ensures { result ≡ rising (keyed_of aliases.now) }
{
    let mut last = None;
    for pair in aliases.as_slice() {
        if !comes_after(last, &pair.alias) {
            return false;
        }
        last = Some(&pair.alias);
    }
    true
}

/// Whether the name is above the one before it, if there is one.
fn comes_after(last: Option<&Text>, name: &Text) -> bool
    ensures { result ≡ is_next (option_copied last.entry) name.now }
{
    match last {
        Some(last) => is_below(last, name),
        None => true,
    }
}

/// Whether there is a row or none for each raw id, with that raw id.
#[tactic(auto, unfolding(race_model::specs::Replies::fits_all_found))]
fn are_found(raws: &[Text], rows: &[Option<Row>]) -> bool
    ensures { result ≡ are_rows raws.now (map (option_map cell_of) rows.now) }
{
    let mut rest = rows;
    for raw in raws {
        let Some((row, others)) = rest.split_first() else {
            return false;
        };
        if !is_found(raw, row) {
            return false;
        }
        rest = others;
    }
    rest.is_empty()
}

#[tactic(auto, unfolding(base_model::specs::Keyed::same))]
fn is_found(raw: &Text, row: &Option<Row>) -> bool
    ensures { result ≡ is_row raw.now (option_map cell_of row.now) }
{
    match row {
        Some(row) => *raw == row.raw,
        None => true,
    }
}

/// Whether there is a result for each write, which this write can have.
#[tactic(auto, unfolding(race_model::specs::Replies::fits_items))]
fn are_results(writes: &[Write], items: &[Item]) -> bool
    ensures { result ≡ have_results (map write_of writes.now) (map item_of items.now) }
{
    let mut rest = items;
    for write in writes {
        let Some((item, others)) = rest.split_first() else {
            return false;
        };
        if !is_result(write, *item) {
            return false;
        }
        rest = others;
    }
    rest.is_empty()
}

fn is_result(write: &Write, item: Item) -> bool
    ensures { result ≡ has_result (write_of write.now) (item_of item) }
{
    match item {
        Item::Written(_) => true,
        Item::Exists(_) => matches!(write, Write::Create { .. }),
        Item::Conflict(now) => may_conflict(write, now),
        Item::NotFound => matches!(write, Write::Delete { .. }),
    }
}

/// Whether the write can find this number, or none, where it expects another.
fn may_conflict(write: &Write, now: Option<u64>) -> bool
    ensures { result ≡ has_result (write_of write.now) (conflict now) }
{
    match write {
        Write::Create { .. } => false,
        Write::Put { expect, .. } => match now {
            Some(now) => is_other(*expect, now),
            None => expect.is_some(),
        },
        Write::Delete { expect, .. } => match now {
            Some(now) => is_other(*expect, now),
            None => false,
        },
    }
}

fn is_other(expect: Option<u64>, now: u64) -> bool
    ensures { result ≡ differs expect now }
{
    match expect {
        Some(expect) => now != expect,
        None => false,
    }
}
