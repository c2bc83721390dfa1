//! Migrating documents and lifting attributes, with ids that another program made.
use crate::trees::{document, registry, split, stored, tree};
use doc_transform::{Lifted, Migrated, Output, lift, migrate};
use saved_doc::Doc;
use so_js::print;
use std::alloc::{AllocError, Global};
use std::test::Fail;
use type_registry::Registry;
use version_token::Ver;

const REGISTRY: &str = r#"{"version":"7.12.0","removed":["old"],"types":[
    {"name":"map","kind":"single","migrations":[
        {"version":"7.10.0","ops":[{"op":"rename","from":"a","to":"b"}]},
        {"version":"7.11.0","ops":[{"op":"remove","key":"b"}]}]},
    {"name":"visualization","kind":"single"},
    {"name":"dashboard","kind":"multiple-isolated","shareableAt":"7.12.0","migrations":[
        {"version":"7.11.0","ops":[{"op":"setDefault","key":"n","value":1}]},
        {"version":"7.12.0","ops":[{"op":"wrapList","key":"n"}]}]}]}"#;

/// A raw id, a document, and what migrating gives: a word, or raw ids and documents in turn. The
/// new id is the one that Python's `uuid.uuid5` gives of `a:dashboard:d1` under `NAMESPACE_DNS`.
const ROWS: &str =
    r#"map:m {"type":"map","map":{"b":1,"c":2},"typeMigrationVersion":"7.10.0"} map:m {"coreMigrationVersion":"7.12.0","map":{"c":2},"references":[],"type":"map","typeMigrationVersion":"7.11.0"}
map:m {"type":"map","map":{"a":1,"c":2}} map:m {"coreMigrationVersion":"7.12.0","map":{"c":2},"references":[],"type":"map","typeMigrationVersion":"7.11.0"}
map:m {"type":"map","map":{},"typeMigrationVersion":"7.11.1"} TooNew
a:map:m {"type":"map","map":{"b":1,"c":2},"typeMigrationVersion":"7.10.0"} Corrupt
map: {"type":"map","map":{}} Corrupt
map:m {"type":"map","map":{},"namespaces":["a"]} Corrupt
visualization:v {"type":"visualization","visualization":{},"typeMigrationVersion":"0.0.0"} TooNew
old:o {"type":"old","old":{},"typeMigrationVersion":"9.0.0"} Removed
tag:t {"type":"tag","tag":{}} Unknown
a:dashboard:d1 {"type":"dashboard","dashboard":{},"namespace":"a","originId":"o"} dashboard:375c7f0f-7ee6-5a0e-9ea1-9626e77ff0ff {"coreMigrationVersion":"7.12.0","dashboard":{"n":[1]},"namespaces":["a"],"originId":"d1","references":[],"type":"dashboard","typeMigrationVersion":"7.12.0"} legacy-url-alias:a:dashboard:d1 {"coreMigrationVersion":"7.12.0","legacy-url-alias":{"sourceId":"d1","targetId":"375c7f0f-7ee6-5a0e-9ea1-9626e77ff0ff","targetNamespace":"a","targetType":"dashboard"},"references":[],"type":"legacy-url-alias"}
dashboard:d1 {"type":"dashboard","dashboard":{"n":[]},"typeMigrationVersion":"7.11.0","originId":"o"} dashboard:d1 {"coreMigrationVersion":"7.12.0","dashboard":{"n":[]},"namespaces":["default"],"originId":"o","references":[],"type":"dashboard","typeMigrationVersion":"7.12.0"}
dashboard:d1 {"type":"dashboard","dashboard":{},"typeMigrationVersion":"7.12.0"} Corrupt
a:visualization:v1 {"type":"visualization","visualization":{},"namespace":"a","coreMigrationVersion":"7.11.0","references":[{"id":"d1","name":"x","type":"dashboard"},{"id":"m","name":"y","type":"map"}]} a:visualization:v1 {"coreMigrationVersion":"7.12.0","namespace":"a","references":[{"id":"375c7f0f-7ee6-5a0e-9ea1-9626e77ff0ff","name":"x","type":"dashboard"},{"id":"m","name":"y","type":"map"}],"type":"visualization","visualization":{}}
a:visualization:v1 {"type":"visualization","visualization":{},"namespace":"a","coreMigrationVersion":"7.12.0","references":[{"id":"d1","name":"x","type":"dashboard"}]} a:visualization:v1 {"coreMigrationVersion":"7.12.0","namespace":"a","references":[{"id":"d1","name":"x","type":"dashboard"}],"type":"visualization","visualization":{}}
legacy-url-alias:x {"type":"legacy-url-alias","legacy-url-alias":{}} legacy-url-alias:x {"coreMigrationVersion":"7.12.0","legacy-url-alias":{},"references":[],"type":"legacy-url-alias"}"#;

/// The raw id of an output and its document.
fn told(alloc: Global, output: &Output) -> Result<String, AllocError> {
    let text = stored(alloc, output.doc.get())?;
    let text = String::from_utf8(text.into_vec()).unwrap_or(String::new(alloc));
    [output.raw.as_str(), " ", text.as_str()].concat(alloc)
}

/// All outputs, with spaces between them.
fn told_all(alloc: Global, outputs: &[Output]) -> Result<String, AllocError> {
    let mut texts = String::new(alloc);
    for output in outputs {
        if !texts.is_empty() {
            texts.push_str(" ")?;
        }
        let text = told(alloc, output)?;
        texts.push_str(&text)?;
    }
    Ok(texts)
}

fn is_given(alloc: Global, migrated: &Migrated, want: &str) -> Result<bool, AllocError> {
    match migrated {
        Migrated::Outputs(outputs) => {
            let texts = told_all(alloc, outputs.as_slice())?;
            Ok(texts.as_str() == want)
        }
        Migrated::TooNew => Ok(want == "TooNew"),
        Migrated::Corrupt => Ok(want == "Corrupt"),
        Migrated::Unknown => Ok(want == "Unknown"),
        Migrated::Removed => Ok(want == "Removed"),
    }
}

fn gives(alloc: Global, reg: &Registry, row: &str) -> Result<bool, AllocError> {
    let (raw, rest) = split(row, " ");
    let (text, want) = split(rest, " ");
    let doc = document(alloc, text)?;
    let migrated = migrate(alloc, reg, raw, &doc)?;
    is_given(alloc, &migrated, want)
}

const OPERATIONS: &str =
    r#"{"version":"7.12.0","types":[{"name":"map","kind":"single","migrations":[{"version":"7.11.0","ops":[
    {"op":"rename","from":"title","to":"name"},{"op":"wrapList","key":"n"},{"op":"moveInto","key":"n","into":"meta"},
    {"op":"setDefault","key":"v","value":0},{"op":"mapText","key":"name","table":{"x":"y"}}]}]}]}"#;

const GIVEN: &str = r#"{"n":1,"title":"x"}"#;

/// Whether the attributes, given with the stamp 7.`minor`.0, are lifted to these.
fn lifts_to(alloc: Global, reg: &Registry, minor: u64, want: &str) -> Result<bool, AllocError> {
    let stamp = Ver {
        major: 7,
        minor,
        patch: 0,
    };
    match lift(alloc, reg, "map", Some(stamp), tree(alloc, GIVEN)?)? {
        Lifted::Attributes(js) => Ok(print(alloc, &js)?.as_slice() == want.as_bytes()),
        Lifted::TooNew => Ok(want == "TooNew"),
    }
}

fn lifts(alloc: Global) -> Result<bool, AllocError> {
    let reg = registry(alloc, OPERATIONS)?;
    let changed = r#"{"meta":{"n":[1]},"name":"y","v":0}"#;
    Ok(
        lifts_to(alloc, &reg, 0, changed)?
            && lifts_to(alloc, &reg, 11, GIVEN)?
            && lifts_to(alloc, &reg, 12, "TooNew")?,
    )
}

/// A dashboard with 400 kB of text in one attribute and forty references.
fn large(alloc: Global) -> Result<Doc, AllocError> {
    let references = r#"{"id":"d2","name":"panel","type":"dashboard"},"#.repeat(alloc, 39)?;
    let panels = "{} ".repeat(alloc, 133_334)?;
    let text = [
        r#"{"type":"dashboard","namespace":"a","references":["#,
        references.as_str(),
        r#"{"id":"d2","name":"last","type":"dashboard"}],"dashboard":{"panelsJSON":""#,
        panels.as_str(),
        r#""}}"#,
    ]
    .concat(alloc)?;
    document(alloc, &text)
}

fn is_large(alloc: Global, doc: &Doc) -> Result<bool, AllocError> {
    let text = stored(alloc, doc)?;
    Ok(doc.references.len() == 40 && text.len() > 400_000)
}

fn keeps_a_large_document(alloc: Global, reg: &Registry) -> Result<bool, AllocError> {
    let doc = large(alloc)?;
    let migrated = migrate(alloc, reg, "a:dashboard:d1", &doc)?;
    let Migrated::Outputs(outputs) = migrated else {
        return Ok(false);
    };
    match outputs.get(0) {
        Some(first) => is_large(alloc, first.doc.get()),
        None => Ok(false),
    }
}

#[test]
fn migrates(rt: HostRuntime) -> Result<(), Fail> {
    let reg = registry(rt.alloc(), REGISTRY)?;
    for row in ROWS.split('\n') {
        assert!(rt; gives(rt.alloc(), &reg, row)?, "{row}");
    }
    assert!(rt; keeps_a_large_document(rt.alloc(), &reg)?);
    assert!(rt; lifts(rt.alloc())?);
    Ok(())
}
