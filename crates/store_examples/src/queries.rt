use doc_query::{Query, Selected, Sort, Target, TypeKind, TypeVer, fits, id_of, select};
use plain_data::{List, Text};
use saved_doc::{Doc, Row, SharedDoc, from_js};
use so_js::parse;
use space_scope::{Kind, Space};
use std::alloc::Global;
use std::test::Fail;
use version_token::Ver;

/// Rows in rising order of raw id, each with its document.
const ROWS: &str = r#"
    a:dashboard:d9 {"type":"dashboard","dashboard":{"n":1,"title":"Sales"},"namespace":"a","updated_at":"2","typeMigrationVersion":"7.11.0"}
    dashboard:d1 {"type":"dashboard","dashboard":{"n":1,"title":"Sales"},"updated_at":"2","typeMigrationVersion":"7.10.0"}
    dashboard:d2 {"type":"dashboard","dashboard":{"n":5,"title":"Stock"},"updated_at":"1","typeMigrationVersion":"7.11.0"}
    dashboard:d3 {"type":"dashboard","dashboard":{"n":[7,1]},"updated_at":"2"}
    map:m1 {"type":"map","map":{},"namespaces":["a"],"originId":"d1","references":[{"name":"x","type":"dashboard","id":"d1"}]}
"#;

/// What is asked, word by word, with a filter after `;`, and then the ids that are given after the total.
const ASKED: &str = r#"
    ; => 5 d9 d1 d2 d3 m1
    of=dashboard; => 4 d9 d1 d2 d3
    of=dashboard in=default; => 3 d1 d2 d3
    of=dashboard,map in=a; => 2 d9 m1
    in=a; => 5 d9 d1 d2 d3 m1
    of=; => 0
    not=dashboard; => 1 m1
    to=dashboard:d1; => 1 m1
    to=map:d1; => 0
    origin=d1; => 2 d1 m1
    before=dashboard:7.11.0; => 2 d1 d3
    before=map:7.11.0; => 1 m1
    after=dashboard:d2; => 2 d3 m1
    raw-desc skip=1 take=2; => 5 d3 d2
    time; => 5 m1 d2 d9 d1 d3
    time-desc; => 5 d9 d1 d3 d2 m1
    time-desc skip=1 take=2; => 5 d1 d3
    take=0; => 5
    skip=9; => 5
    of=dashboard in=default;dashboard.attributes.title: S* and not dashboard.attributes.n > 3 => 1 d1
    of=dashboard in=default;dashboard.attributes.n >= 7 => 1 d3
    of=dashboard in=default time-desc;dashboard.attributes.n: 1 => 2 d1 d3
    of=dashboard in=default;dashboard.attributes.title: "Sal*" => 0
    of=dashboard in=default;NOT dashboard.attributes.title: * => 1 d3
    of=dashboard in=default;(dashboard.attributes.n < 2 or dashboard.attributes.title:Stock) => 3 d1 d2 d3
"#;

fn doc(alloc: Global, text: &str) -> Result<Doc, Fail> {
    let js = parse(alloc, text.as_bytes(), 127).ok().ok_or("a tree")?;
    Ok(from_js(alloc, &js).ok().ok_or("a document")?)
}

fn rows(alloc: Global) -> Result<List<Row>, Fail> {
    let mut rows = List::new(alloc);
    for line in ROWS.trim().lines() {
        let (raw, text) = line.trim().split_once(' ').ok_or("a row")?;
        rows.push(Row {
            raw: Text::from_str(alloc, raw)?,
            seq: rows.len() as u64,
            doc: SharedDoc::new(alloc, doc(alloc, text)?)?,
        })?;
    }
    Ok(rows)
}

fn nothing_asked(alloc: Global) -> Query {
    Query {
        types: None,
        not_types: List::new(alloc),
        space: None,
        reference: None,
        origin: None,
        outdated: List::new(alloc),
        after: None,
        sort: Sort::Raw,
        descending: false,
        skip: 0,
        take: None,
        filter: None,
    }
}

fn kinds(alloc: Global, names: &str) -> Result<List<TypeKind>, Fail> {
    let mut kinds = List::new(alloc);
    for name in names.split(',').filter(|name| !name.is_empty()) {
        let kind = if name == "map" {
            Kind::Multiple
        } else {
            Kind::Single
        };
        kinds.push(TypeKind {
            name: Text::from_str(alloc, name)?,
            kind,
        })?;
    }
    Ok(kinds)
}

fn ask(alloc: Global, query: &mut Query, name: &str, value: &str) -> Result<(), Fail> {
    let text = Text::from_str(alloc, value)?;
    let (type_name, rest) = value.split_once(':').unwrap_or(("", ""));
    let type_name = Text::from_str(alloc, type_name)?;
    match name {
        "of" => query.types = Some(kinds(alloc, value)?),
        "not" => query.not_types.push(text)?,
        "in" => query.space = Some(Space::read(alloc, value).ok().ok_or("a space")?),
        "to" => {
            let id = Text::from_str(alloc, rest)?;
            query.reference = Some(Target { type_name, id });
        }
        "origin" => query.origin = Some(text),
        "before" => query.outdated.push(TypeVer {
            name: type_name,
            latest: Ver::parse(alloc, rest).ok_or("a version")?,
        })?,
        "after" => query.after = Some(text),
        "skip" => query.skip = value.parse().ok().ok_or("a number")?,
        "take" => query.take = Some(value.parse().ok().ok_or("a number")?),
        "raw-desc" => query.descending = true,
        "time" => query.sort = Sort::UpdatedAt,
        _ => {
            query.sort = Sort::UpdatedAt;
            query.descending = true;
        }
    }
    Ok(())
}

fn query(alloc: Global, words: &str, filter: &str) -> Result<Query, Fail> {
    let mut query = nothing_asked(alloc);
    for word in words.split_ascii_whitespace() {
        let (name, value) = word.split_once('=').unwrap_or((word, ""));
        ask(alloc, &mut query, name, value)?;
    }
    if !filter.is_empty() {
        query.filter = Some(kql_filter::read(alloc, filter).ok().ok_or("a filter")?);
    }
    Ok(query)
}

fn told(alloc: Global, selected: &Selected) -> Result<String, Fail> {
    let total = selected.total;
    let mut told = format!(in alloc; "{total}")?;
    for row in selected.rows.as_slice() {
        told.push_str(" ")?;
        told.push_str(id_of(row.raw.as_str(), row.doc.get()))?;
    }
    Ok(told)
}

#[test]
fn selects_rows(rt: HostRuntime) -> Result<(), Fail> {
    let alloc = rt.alloc();
    let rows = rows(alloc)?;
    for line in ASKED.trim().lines() {
        let (asked, want) = line.trim().split_once(" => ").ok_or("a case")?;
        let (words, filter) = asked.split_once(';').ok_or("a query")?;
        let query = query(alloc, words, filter)?;
        let selected = select(alloc, rows.as_slice(), &query)?;
        assert_eq!(rt; told(alloc, &selected)?.as_str(), want, "{line}");
        for row in selected.rows.as_slice() {
            assert!(rt; fits(row, &query), "{line}");
        }
    }
    Ok(())
}
