//! The store of the examples, their registry, their calls and the lines of their answers.
ghost use Rattle.std.specs.Prelude.{◌≡◌, ◌∷◌, [], true, IfOk, codes};
ghost use Rattle.so_js.specs.Tree.{is_sound};
ghost use Rattle.call_words.specs.Limits.{HasFewObjects};

use call_lines::read_call;
use call_words::{Answer, Call};
use doc_table::DocTable;
use plain_data::{List, Text};
use report::{AnswerAt, answer_line};
use saved_doc::{SharedDoc, from_js};
use so_js::{Js, parse};
use std::alloc::{AllocError, Global};
use std::test::Fail;
use store_core::{Opened, Pair, StoreCore};
use type_registry::Registry;

const REGISTRY: &str =
    r#"{"version":"7.12.0","types":[{"name":"tag","kind":"multiple"},{"name":"map","kind":"single"}]}"#;

/// The index of the registry's version.
pub const INDEX: &str = ".kibana_7.12.0_001";

fn tree(alloc: Global, text: &str) -> Result<Js, Fail>
    ensures { IfOk result (λ js. is_sound js ≡ true) }
{
    match parse(alloc, text.as_bytes(), 127) {
        Ok(js) => Ok(js),
        Err(_) => Err("no tree".into()),
    }
}

pub fn registry(alloc: Global) -> Result<Registry, Fail> {
    let js = tree(alloc, REGISTRY)?;
    Ok(Registry::read(alloc, &js).ok().ok_or("a registry")?)
}

pub fn call(alloc: Global, text: &str) -> Result<Call, Fail>
    ensures { IfOk result (λ call. HasFewObjects call) }
{
    let js = tree(alloc, text)?;
    match read_call(alloc, &js) {
        Ok(call) => Ok(call),
        Err(_) => Err("no call".into()),
    }
}

/// The line of a client's answer.
pub fn line(alloc: Global, actor: u32, tag: u64, answer: Answer) -> Result<String, Fail> {
    let line = answer_line(alloc, &AnswerAt::Actor { actor, tag }, answer)?;
    Ok(String::from_utf8(line.into_vec()).ok().ok_or("a text")?)
}

fn shared_doc(alloc: Global, text: &str) -> Result<SharedDoc, Fail> {
    let js = tree(alloc, text)?;
    let doc = from_js(alloc, &js).ok().ok_or("a document")?;
    Ok(SharedDoc::new(alloc, doc)?)
}

/// A table of one document.
fn table(alloc: Global, raw: &str, doc: &str) -> Result<DocTable, Fail> {
    let mut table = DocTable::empty(alloc);
    table.create(Text::from_str(alloc, raw)?, shared_doc(alloc, doc)?)?;
    Ok(table)
}

fn index(alloc: Global, table: DocTable) -> Result<List<Opened>, AllocError>
    ensures { IfOk result (λ indices. indices ≡ record { name = codes ".kibana_7.12.0_001"; table = table } ∷ []) }
{
    let name = Text::from_str(alloc, INDEX)?;
    let mut indices = List::new(alloc);
    indices.push(Opened { name, table })?;
    Ok(indices)
}

fn alias(alloc: Global, name: &str) -> Result<Pair, AllocError>
    ensures { IfOk result (λ pair. pair ≡ record { alias = name.now; index = codes ".kibana_7.12.0_001" }) }
{
    let alias = Text::from_str(alloc, name)?;
    let index = Text::from_str(alloc, INDEX)?;
    Ok(Pair { alias, index })
}

/// The current alias and that of the version.
fn aliases(alloc: Global) -> Result<List<Pair>, AllocError>
    ensures { IfOk result (λ pairs. pairs ≡ record { alias = codes ".kibana"; index = codes ".kibana_7.12.0_001" } ∷ record { alias = codes ".kibana_7.12.0"; index = codes ".kibana_7.12.0_001" } ∷ []) }
{
    let mut pairs = List::new(alloc);
    pairs.push(alias(alloc, ".kibana")?)?;
    pairs.push(alias(alloc, ".kibana_7.12.0")?)?;
    Ok(pairs)
}

/// A store of one document, numbered 0, in the version's index, which both aliases name.
pub fn store(alloc: Global, raw: &str, doc: &str) -> Result<StoreCore, Fail> {
    let table = table(alloc, raw, doc)?;
    if table.next() >= 1 << 62 {
        return Err("too many rows".into());
    }
    let indices = index(alloc, table)?;
    let aliases = aliases(alloc)?;
    Ok(StoreCore::open(indices, aliases, 1_000)?)
}
