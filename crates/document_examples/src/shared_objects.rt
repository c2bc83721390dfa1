//! The ids of objects that become shareable, against another program's, and the documents that lead
//! from their old ids.
use crate::trees::{split, stored};
use raw_id::raw_of;
use share_ids::{alias_doc, alias_raw, new_id};
use space_scope::{Kind, Space};
use std::alloc::{AllocError, Global};
use std::test::Fail;
use uuid::Uuid;
use version_token::Ver;

/// A space, a type, an id, and the id that Python's `uuid.uuid5` gives under `NAMESPACE_DNS`.
const IDS: &str = "a:dashboard:d1 375c7f0f-7ee6-5a0e-9ea1-9626e77ff0ff
x_y-1:index-pattern:logs-* 4e02e76d-3da9-58f9-b925-708dc127f456
a:dashboard:Übersicht cd6f3eeb-4f77-5b66-bd7c-634297069de8
s:map:iiiiiiiiiiiiiiiiiiiiiiiiiiiiiiiiiiiiiiiiiiiiiiiiiiiiiiiiiiiiiiiiiiiiiiiiiiiiiiiiiiiiiiiiiiiiiiiiiiii 27b30563-9607-5694-8385-97c9cbb7be09";

fn is_given(alloc: Global, line: &str) -> Result<bool, AllocError> {
    let (space, rest) = split(line, ":");
    let (name, rest) = split(rest, ":");
    let (id, want) = split(rest, " ");
    let got = new_id(alloc, space, name, id)?;
    Ok(got.as_str() == want)
}

/// Whether the crate that makes the ids gives the example of version 5 in RFC 9562.
fn is_the_example() -> bool {
    let id = Uuid::new_v5(&Uuid::NAMESPACE_DNS, b"www.example.com");
    let mut buffer = Uuid::encode_buffer();
    let text = id.hyphenated().encode_lower(&mut buffer);
    text == "2ed6657d-e927-568b-95e1-2665a8aea6a2"
}

const ALIAS: &str =
    r#"{"coreMigrationVersion":"7.12.0","legacy-url-alias":{"sourceId":"d1","targetId":"u","targetNamespace":"a","targetType":"dashboard"},"references":[],"type":"legacy-url-alias"}"#;

fn writes_the_alias(alloc: Global) -> Result<bool, AllocError> {
    let version = Ver {
        major: 7,
        minor: 12,
        patch: 0,
    };
    let doc = alias_doc(alloc, version, "a", "dashboard", "d1", "u")?;
    let got = stored(alloc, &doc)?;
    Ok(got.as_slice() == ALIAS.as_bytes())
}

/// Whether an alias document lies under the raw id of an object of its type, which is agnostic.
fn lies_under_its_raw_id(alloc: Global) -> Result<bool, AllocError> {
    let raw = alias_raw(alloc, "a", "dashboard", "d1")?;
    match raw_of(
        alloc,
        Kind::Agnostic,
        &Space::Default,
        "legacy-url-alias",
        "a:dashboard:d1",
    ) {
        Ok(own) => Ok(raw.as_str() == own.as_str()),
        Err(_) => Ok(false),
    }
}

#[test]
fn gives_ids_and_aliases(rt: HostRuntime) -> Result<(), Fail> {
    for line in IDS.split('\n') {
        assert!(rt; is_given(rt.alloc(), line)?, "{line}");
    }
    assert!(rt; is_the_example());
    assert!(rt; writes_the_alias(rt.alloc())? && lies_under_its_raw_id(rt.alloc())?);
    Ok(())
}
