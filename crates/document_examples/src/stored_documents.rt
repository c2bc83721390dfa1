//! Documents in their stored form: read, refused, written, shared, and visible in spaces.
use crate::trees::{document, split, stored, tree};
use plain_data::Text;
use saved_doc::{Doc, DocError, Row, SharedDoc, from_js, from_owned_js, visible};
use space_scope::{Kind, Space};
use std::alloc::{AllocError, Global};
use std::test::Fail;

/// Documents as they are read and as they are written. Both forms of the stamp are read, and the
/// newer one counts.
const WRITTEN: &str =
    r#"{"type":"dashboard","dashboard":{}} => {"dashboard":{},"references":[],"type":"dashboard"}
{"type":"map","map":{"b":[1],"a":"x"},"typeMigrationVersion":"7.11.0","migrationVersion":{"map":"7.10.0"}} => {"map":{"a":"x","b":[1]},"references":[],"type":"map","typeMigrationVersion":"7.11.0"}
{"updated_at":"now","originId":"m1","type":"map","map":{},"namespaces":["*","default","a"],"references":[{"type":"t","name":"n","id":"i"}],"coreMigrationVersion":"7.12.0"} => {"coreMigrationVersion":"7.12.0","map":{},"namespaces":["*","default","a"],"originId":"m1","references":[{"id":"i","name":"n","type":"t"}],"type":"map","updated_at":"now"}
{"Zoo":{},"type":"Zoo","migrationVersion":{"Zoo":"7.10.0"},"namespace":"a_b-1"} => {"Zoo":{},"namespace":"a_b-1","references":[],"type":"Zoo","typeMigrationVersion":"7.10.0"}
{"type":"zoo","zoo":{"type":"zoo"},"migrationVersion":{}} => {"references":[],"type":"zoo","zoo":{"type":"zoo"}}"#;

fn is_written(alloc: Global, line: &str) -> Result<bool, AllocError> {
    let (text, want) = split(line, " => ");
    let doc = document(alloc, text)?;
    let got = stored(alloc, &doc)?;
    Ok(got.as_slice() == want.as_bytes())
}

/// Trees that are no documents, each behind the refusal that it gets.
const REFUSED: &str = r#"WrongKind []
MissingField {}
WrongKind {"type":1}
WrongKind {"type":"type"}
WrongKind {"type":"a b","a b":{}}
MissingField {"type":"t"}
WrongKind {"type":"t","t":[]}
WrongKind {"type":"t","t":{},"references":{}}
WrongKind {"type":"t","t":{},"references":[{"id":"i","name":"n"}]}
WrongKind {"type":"t","t":{},"references":[{"id":"i","name":"n","type":"t","x":1}]}
WrongKind {"type":"t","t":{},"namespace":1}
BadSpace {"type":"t","t":{},"namespace":"A"}
BadSpace {"type":"t","t":{},"namespace":"default"}
WrongKind {"type":"t","t":{},"namespaces":[]}
BadSpace {"type":"t","t":{},"namespaces":["A",1]}
WrongKind {"type":"t","t":{},"namespaces":[1,"A"]}
BadVersion {"type":"t","t":{},"typeMigrationVersion":"7"}
BadVersion {"type":"t","t":{},"migrationVersion":{"t":"7"}}
WrongKind {"type":"t","t":{},"typeMigrationVersion":"7.11.0","migrationVersion":{"t":7}}
WrongKind {"type":"t","t":{},"migrationVersion":{"u":"7.0.0"}}
WrongKind {"type":"t","t":{},"migrationVersion":{"t":"7.0.0","u":"7.0.0"}}
BadVersion {"type":"t","t":{},"typeMigrationVersion":"7.0.0","migrationVersion":{"t":"7"}}
BadVersion {"type":"t","t":{},"coreMigrationVersion":"7.0.0-a"}
WrongKind {"type":"t","t":{},"updated_at":1}
WrongKind {"type":"t","t":{},"originId":null}
UnknownField {"type":"t","t":{},"version":"WzAsMV0="}
BadVersion {"type":"t","t":{},"x":1,"coreMigrationVersion":"7"}
BadSpace {"type":"t","t":{},"coreMigrationVersion":"7","namespace":"A"}"#;

fn is_named(error: DocError, name: &str) -> bool {
    match error {
        DocError::Memory => false,
        DocError::MissingField => name == "MissingField",
        DocError::WrongKind => name == "WrongKind",
        DocError::BadVersion => name == "BadVersion",
        DocError::BadSpace => name == "BadSpace",
        DocError::UnknownField => name == "UnknownField",
    }
}

fn is_refused(alloc: Global, line: &str) -> Result<bool, AllocError> {
    let (name, text) = split(line, " ");
    let js = tree(alloc, text)?;
    match from_js(alloc, &js) {
        Ok(_) => Ok(false),
        Err(error) => Ok(is_named(error, name)),
    }
}

/// The kind of a type, where of `default`, `x` and `y` its document is visible, and the document.
const VISIBLE: &str = r#"single x {"type":"t","t":{},"namespace":"x"}
single default {"type":"t","t":{},"namespaces":["x"]}
multiple xy {"type":"t","t":{},"namespaces":["x","y"]}
isolated default {"type":"t","t":{},"namespaces":["default"]}
isolated default,xy {"type":"t","t":{},"namespaces":["z","*"]}
multiple nowhere {"type":"t","t":{},"namespace":"x"}
agnostic default,xy {"type":"t","t":{},"namespace":"x"}"#;

fn kind_of(name: &str) -> Kind {
    match name {
        "single" => Kind::Single,
        "multiple" => Kind::Multiple,
        "isolated" => Kind::MultipleIsolated,
        _ => Kind::Agnostic,
    }
}

fn is_seen(alloc: Global, kind: Kind, doc: &Doc, name: &str) -> Result<bool, AllocError> {
    match Space::read(alloc, name) {
        Ok(space) => Ok(visible(kind, doc, &space)),
        Err(_) => Err(AllocError),
    }
}

fn is_seen_where_it_lies(alloc: Global, line: &str) -> Result<bool, AllocError> {
    let (kind, rest) = split(line, " ");
    let (spaces, text) = split(rest, " ");
    let kind = kind_of(kind);
    let doc = document(alloc, text)?;
    let default = is_seen(alloc, kind, &doc, "default")? == spaces.contains("default");
    let x = is_seen(alloc, kind, &doc, "x")? == spaces.contains("x");
    let y = is_seen(alloc, kind, &doc, "y")? == spaces.contains("y");
    Ok(default && x && y)
}

/// Whether a document that two rows share is written the same by both.
fn is_shared(alloc: Global, text: &str) -> Result<bool, AllocError> {
    let Ok(doc) = from_owned_js(alloc, tree(alloc, text)?) else {
        return Ok(false);
    };
    let shared = SharedDoc::new(alloc, doc)?;
    let row = Row {
        raw: Text::from_str(alloc, "t:1")?,
        seq: 1,
        doc: shared.clone()?,
    };
    let copy = row.clone()?;
    let first = stored(alloc, &shared.into_doc()?)?;
    let second = stored(alloc, copy.doc.get())?;
    Ok(first.as_slice() == text.as_bytes() && second.as_slice() == text.as_bytes())
}

#[test]
fn reads_and_writes(rt: HostRuntime) -> Result<(), Fail> {
    for line in WRITTEN.split('\n') {
        assert!(rt; is_written(rt.alloc(), line)?, "{line}");
    }
    for line in REFUSED.split('\n') {
        assert!(rt; is_refused(rt.alloc(), line)?, "{line}");
    }
    Ok(())
}

#[test]
fn lies_in_spaces(rt: HostRuntime) -> Result<(), Fail> {
    for line in VISIBLE.split('\n') {
        assert!(rt; is_seen_where_it_lies(rt.alloc(), line)?, "{line}");
    }
    assert!(rt; is_shared(rt.alloc(), r#"{"references":[],"t":{"a":[1]},"type":"t"}"#)?);
    Ok(())
}
