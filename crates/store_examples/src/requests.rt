ghost use Rattle.std.specs.Prelude.{IsTrue};
ghost use Rattle.store_words.specs.Links.{IsSendable};

use doc_query::{Query, Sort};
use plain_data::{List, Text};
use saved_doc::{Row, SharedDoc, from_js};
use so_js::parse;
use std::alloc::{AllocError, Global};
use std::test::Fail;
use store_core::{StoreCore, StoreError};
use store_words::{Action, How, IndexSeen, Item, Pair, Refusal, Reply, Request, Write};

/// Requests in order on a store that begins with nothing, and the replies.
const STEPS: &str = "
    ping => done
    state => state |
    create a => done
    create a => exists a from nothing
    create b a => done
    create b => exists b from a
    add al x => no index x
    adds al a x => no index x
    state => state a b<a |
    add al a => done
    add al a => done
    add b a => name taken b
    add al b => alias taken al a
    create al => name taken al
    state => state a b<a | al:a
    bulk al m1 m0 => items 0 1
    bulk a m1 => items =0
    bulk x m1 => no index x
    open al => pit 0
    erase a m1 => items 2
    erase a m1 => items -
    search al => 1 m0#1
    read 0 => 2 m0#1 m1#0
    close 0 => done
    read 0 => no pit 0
    bulk a m1 => items 3
    block al => no index al
    block a => done
    bulk al m2 => blocked a
    state => state a! b<a | al:a
    search al => 2 m0#1 m1#3
    search x => no index x
    get al m1 m9 => found m1 -
    get x m1 => no index x
    open al => pit 1
    open x => no index x
    clone b al => name taken al
    clone a b => exists b from a
    clone x c => no index x
    clone b c => not blocked b
    clone al c => no index al
    clone a c => done
    block b => done
    clone b d => done
    create d => exists d from a
    search c => 2 m0#0 m1#1
    remove al b => alias missing al b
    remove x a => alias missing x a
    drop x => no index x
    drop a => done
    state => state b!<a c d<a |
    search al => no index al
    read 1 => 2 m0#1 m1#3
    close 1 => done
    close 1 => no pit 1
    read 1 => no pit 1
    create al => done
";

fn shared_doc(alloc: Global) -> Result<SharedDoc, Fail> {
    let js = parse(alloc, br#"{"type":"map","map":{}}"#, 127)
        .ok()
        .ok_or("a tree")?;
    let doc = from_js(alloc, &js).ok().ok_or("a document")?;
    Ok(SharedDoc::new(alloc, doc)?)
}

fn everything(alloc: Global) -> Query {
    Query {
        types: None,
        not_types: List::new(alloc),
        space: None,
        reference: None,
        origin: None,
        outdated: List::new(alloc),
        after: None,
        sort: Sort::Raw,
        descending: false,
        skip: 0,
        take: None,
        filter: None,
    }
}

fn texts(alloc: Global, words: &str) -> Result<List<Text>, AllocError> {
    let mut texts = List::new(alloc);
    for word in words.split_ascii_whitespace() {
        texts.push(Text::from_str(alloc, word)?)?;
    }
    Ok(texts)
}

fn creates(alloc: Global, words: &str) -> Result<List<Write>, Fail> {
    let mut writes = List::new(alloc);
    for raw in texts(alloc, words)?.into_vec() {
        let doc = shared_doc(alloc)?;
        writes.push(Write::Create { raw, doc })?;
    }
    Ok(writes)
}

fn deletes(alloc: Global, words: &str) -> Result<List<Write>, AllocError> {
    let mut writes = List::new(alloc);
    for raw in texts(alloc, words)?.into_vec() {
        writes.push(Write::Delete { raw, expect: None })?;
    }
    Ok(writes)
}

fn source(alloc: Global, word: &str) -> Result<Option<Text>, AllocError> {
    if word.is_empty() {
        return Ok(None);
    }
    Ok(Some(Text::from_str(alloc, word)?))
}

fn number(word: &str) -> Result<u64, Fail> {
    Ok(word.parse().ok().ok_or("a number")?)
}

fn aliases(alloc: Global, action: Action) -> Result<Request, AllocError> {
    let mut actions = List::new(alloc);
    actions.push(action)?;
    Ok(Request::Aliases { actions })
}

/// Adds an alias to each of these indices.
fn adds(alloc: Global, alias: &str, indices: &str) -> Result<Request, AllocError> {
    let mut actions = List::new(alloc);
    for index in texts(alloc, indices)?.into_vec() {
        let alias = Text::from_str(alloc, alias)?;
        actions.push(Action::Add { alias, index })?;
    }
    Ok(Request::Aliases { actions })
}

/// The alias request of a word, or none where the word names none.
fn alias_request(
    alloc: Global,
    word: &str,
    name: &str,
    more: &str,
) -> Result<Option<Request>, AllocError> {
    if word == "adds" {
        return Ok(Some(adds(alloc, name, more)?));
    }
    let first = Text::from_str(alloc, name)?;
    let index = Text::from_str(alloc, more)?;
    let action = match word {
        "add" => Action::Add {
            alias: first,
            index,
        },
        "remove" => Action::RemoveMustExist {
            alias: first,
            index,
        },
        "drop" => Action::RemoveIndex(first),
        _ => return Ok(None),
    };
    Ok(Some(aliases(alloc, action)?))
}

fn request(alloc: Global, step: &str) -> Result<Request, Fail> {
    let (word, words) = step.split_once(' ').unwrap_or((step, ""));
    let (name, more) = words.split_once(' ').unwrap_or((words, ""));
    if let Some(request) = alias_request(alloc, word, name, more)? {
        return Ok(request);
    }
    let index = Text::from_str(alloc, name)?;
    Ok(match word {
        "ping" => Request::Ping,
        "state" => Request::State,
        "create" => Request::Create {
            index,
            source: source(alloc, more)?,
        },
        "block" => Request::Block { index },
        "clone" => Request::Clone {
            from: index,
            to: Text::from_str(alloc, more)?,
        },
        "open" => Request::OpenPit { index },
        "read" => Request::ReadPit {
            pit: number(name)?,
            query: everything(alloc),
        },
        "close" => Request::ClosePit { pit: number(name)? },
        "get" => Request::Get {
            index,
            raws: texts(alloc, more)?,
        },
        "search" => Request::Search {
            index,
            query: everything(alloc),
        },
        "erase" => Request::Bulk {
            index,
            items: deletes(alloc, more)?,
        },
        _ => Request::Bulk {
            index,
            items: creates(alloc, more)?,
        },
    })
}

/// Whether a request may be sent.
fn is_short(request: &Request) -> bool
    ensures { IsTrue result → IsSendable request.now }
{
    match request {
        Request::Bulk { items, .. } => items.len() <= 65_536,
        _ => true,
    }
}

fn sent(core: &mut StoreCore, request: &Request) -> Result<Reply, Fail> {
    if !is_short(request) {
        return Err("a bulk that is too long".into());
    }
    match core.send(1, 1, How::Heard, request) {
        Ok(reply) => Ok(reply),
        Err(StoreError::Memory) => Err("memory".into()),
        Err(StoreError::JournalFull(_)) => Err("a full journal".into()),
    }
}

fn add_index(told: &mut String, index: &IndexSeen) -> Result<(), AllocError> {
    told.push_str(" ")?;
    told.push_str(index.name.as_str())?;
    if index.blocked {
        told.push_str("!")?;
    }
    if let Some(source) = &index.source {
        told.push_str("<")?;
        told.push_str(source.as_str())?;
    }
    Ok(())
}

fn add_pair(told: &mut String, pair: &Pair) -> Result<(), AllocError> {
    told.push_str(" ")?;
    told.push_str(pair.alias.as_str())?;
    told.push_str(":")?;
    told.push_str(pair.index.as_str())
}

fn told_state(
    alloc: Global,
    indices: &List<IndexSeen>,
    aliases: &List<Pair>,
) -> Result<String, AllocError> {
    let mut told = String::from_str(alloc, "state")?;
    for index in indices.as_slice() {
        add_index(&mut told, index)?;
    }
    told.push_str(" |")?;
    for pair in aliases.as_slice() {
        add_pair(&mut told, pair)?;
    }
    Ok(told)
}

fn add_found(told: &mut String, row: &Option<Row>) -> Result<(), AllocError> {
    told.push_str(" ")?;
    match row {
        Some(row) => told.push_str(row.raw.as_str()),
        None => told.push_str("-"),
    }
}

fn add_item(alloc: Global, told: &mut String, item: &Item) -> Result<(), AllocError> {
    let text = match item {
        Item::Written(number) => format!(in alloc; " {number}")?,
        Item::Exists(number) => format!(in alloc; " ={number}")?,
        Item::NotFound => String::from_str(alloc, " -")?,
        _ => String::from_str(alloc, " ?")?,
    };
    told.push_str(text.as_str())
}

fn add_row(alloc: Global, told: &mut String, row: &Row) -> Result<(), AllocError> {
    let (raw, seq) = (row.raw.as_str(), row.seq);
    told.push_str(format!(in alloc; " {raw}#{seq}")?.as_str())
}

fn told_rows(alloc: Global, total: u64, rows: &List<Row>) -> Result<String, AllocError> {
    let mut told = format!(in alloc; "{total}")?;
    for row in rows.as_slice() {
        add_row(alloc, &mut told, row)?;
    }
    Ok(told)
}

fn told_found(alloc: Global, rows: &List<Option<Row>>) -> Result<String, AllocError> {
    let mut told = String::from_str(alloc, "found")?;
    for row in rows.as_slice() {
        add_found(&mut told, row)?;
    }
    Ok(told)
}

fn told_items(alloc: Global, items: &List<Item>) -> Result<String, AllocError> {
    let mut told = String::from_str(alloc, "items")?;
    for item in items.as_slice() {
        add_item(alloc, &mut told, item)?;
    }
    Ok(told)
}

fn told_refusal(alloc: Global, refusal: &Refusal) -> Result<String, AllocError> {
    let (words, name) = match refusal {
        Refusal::Exists { name, source } => {
            let name = name.as_str();
            let source = source.as_ref().map_or("nothing", |source| source.as_str());
            return format!(in alloc; "exists {name} from {source}");
        }
        Refusal::NoPit(number) => return format!(in alloc; "no pit {number}"),
        Refusal::AliasMissing { alias, index } => {
            let (alias, index) = (alias.as_str(), index.as_str());
            return format!(in alloc; "alias missing {alias} {index}");
        }
        Refusal::AliasTaken { alias, index } => {
            let (alias, index) = (alias.as_str(), index.as_str());
            return format!(in alloc; "alias taken {alias} {index}");
        }
        Refusal::NameTaken(name) => ("name taken", name.as_str()),
        Refusal::NoIndex(name) => ("no index", name.as_str()),
        Refusal::NotBlocked(name) => ("not blocked", name.as_str()),
        Refusal::Blocked(name) => ("blocked", name.as_str()),
    };
    format!(in alloc; "{words} {name}")
}

fn told(alloc: Global, reply: &Reply) -> Result<String, AllocError> {
    match reply {
        Reply::Done => String::from_str(alloc, "done"),
        Reply::State { indices, aliases } => told_state(alloc, indices, aliases),
        Reply::Pit(number) => format!(in alloc; "pit {number}"),
        Reply::Rows(selected) => told_rows(alloc, selected.total, &selected.rows),
        Reply::Found(rows) => told_found(alloc, rows),
        Reply::Items(items) => told_items(alloc, items),
        Reply::Refused(refusal) => told_refusal(alloc, refusal),
    }
}

/// The first step that got another reply, with its reply.
fn first_other(alloc: Global, core: &mut StoreCore) -> Result<String, Fail> {
    for line in STEPS.trim().lines() {
        let (step, want) = line.trim().split_once(" => ").ok_or("a step")?;
        let reply = sent(core, &request(alloc, step)?)?;
        let reply = told(alloc, &reply)?;
        if reply.as_str() != want {
            return Ok(format!(in alloc; "{step}: {reply}")?);
        }
    }
    Ok(String::new(alloc))
}

/// Whether a core whose journal may hold two entries answers two requests and no third.
fn stops_at_two(alloc: Global) -> Result<bool, AllocError> {
    let mut core = StoreCore::open(List::new(alloc), List::new(alloc), 2)?;
    let first = core.send(1, 1, How::Heard, &Request::Ping).is_ok();
    let second = core.send(2, 1, How::Unheard, &Request::State).is_ok();
    let third = core.send(1, 1, How::Late, &Request::Ping).err()
        == Some(StoreError::JournalFull(2));
    Ok(first && second && third && core.journal().len() == 2)
}

#[test]
fn answers_each_request(rt: HostRuntime) -> Result<(), Fail> {
    let alloc = rt.alloc();
    let mut core = StoreCore::open(List::new(alloc), List::new(alloc), 1_000)?;
    assert_eq!(rt; first_other(alloc, &mut core)?.as_str(), "");
    assert_eq!(rt; core.journal().len(), STEPS.trim().lines().count());
    assert_eq!(rt; core.names()?.len(), 4);
    assert_eq!(rt; core.aliases().len(), 0);
    assert_eq!(rt; core.blocked("c"), Some(false));
    assert!(rt; core.source_of("b").is_some());
    assert!(rt; core.table("a").is_none());
    Ok(())
}

#[test]
fn a_full_journal_answers_no_more(rt: HostRuntime) -> Result<(), Fail> {
    assert!(rt; stops_at_two(rt.alloc())?);
    Ok(())
}
