//! Registries: read, refused by their first fault, and asked for their types.
use crate::trees::{registry, split, tree};
use std::alloc::{AllocError, Global};
use std::test::Fail;
use type_registry::{RegError, Registry};
use version_token::Ver;

/// A fault, and a registry.
const REFUSED: &str = r#"WrongKind []
MissingField {}
BadVersion {"version":"7","types":1}
MissingField {"version":"7.12.0"}
WrongKind {"version":"7.12.0","types":{}}
WrongKind {"version":"7.12.0","types":[1]}"#;

/// A fault, and a registry of version 7.12.0 whose one type has these members and these behind the
/// types.
const REFUSED_TYPES: &str = r#"MissingField "kind":"single"
WrongKind "name":1
BadType "name":"type"
DuplicateType "name":"legacy-url-alias"
MissingField "name":"a"
WrongKind "name":"a","kind":null
BadKind "name":"a","kind":"double"
BadVersion "name":"a","kind":"single","shareableAt":"7"
BadKind "name":"a","kind":"single","shareableAt":"7.11.0"
BadVersion "name":"a","kind":"multiple","shareableAt":"7.12.1"
WrongKind "name":"a","kind":"single","migrations":{}
WrongKind "name":"a","kind":"single","migrations":[1]
MissingField "name":"a","kind":"single","migrations":[{"ops":[]}]
BadVersion "name":"a","kind":"single","migrations":[{"version":"8.0.0"}]
MissingField "name":"a","kind":"single","migrations":[{"version":"7.0.0"}]
UnsortedVersions "name":"a","kind":"single","migrations":[{"version":"7.11.0","ops":[]},{"version":"7.10.0","ops":[]}]
UnsortedVersions "name":"a","kind":"single","migrations":[{"version":"7.11.0","ops":[]},{"version":"7.11.0","ops":1}]
BadOp "name":"a","kind":"single","migrations":[{"version":"7.11.0","ops":[{"op":"drop","key":"x"}],"x":1}]
UnknownField "name":"a","kind":"single","migrations":[{"version":"7.11.0","ops":[],"x":1}]
UnknownField "name":"a","kind":"single","x":1
DuplicateType "name":"a","kind":"single"},{"name":"a"
WrongKind "name":"a","kind":"single"}],"removed":[{"x":1
BadType "name":"a","kind":"single"}],"removed":["b",""],"x":[{"x":1
DuplicateType "name":"a","kind":"single"}],"removed":["b","a"],"x":[{"x":1
DuplicateType "name":"a","kind":"single"}],"removed":["b","b"],"x":[{"x":1
UnknownField "name":"a","kind":"single"}],"removed":["b"],"x":[{"x":1"#;

fn word_of(error: RegError) -> &'static str {
    match error {
        RegError::Memory => "Memory",
        RegError::MissingField => "MissingField",
        RegError::WrongKind => "WrongKind",
        RegError::UnknownField => "UnknownField",
        RegError::BadVersion => "BadVersion",
        RegError::BadType => "BadType",
        RegError::DuplicateType => "DuplicateType",
        RegError::BadKind => "BadKind",
        RegError::UnsortedVersions => "UnsortedVersions",
        RegError::BadOp => "BadOp",
    }
}

fn is_refused(alloc: Global, want: &str, text: &str) -> Result<bool, AllocError> {
    let js = tree(alloc, text)?;
    match Registry::read(alloc, &js) {
        Ok(_) => Ok(want == "read"),
        Err(error) => Ok(want == word_of(error)),
    }
}

fn is_refused_for_its_type(alloc: Global, want: &str, members: &str) -> Result<bool, AllocError> {
    let text = [r#"{"version":"7.12.0","types":[{"#, members, "}]}"].concat(alloc)?;
    is_refused(alloc, want, &text)
}

/// A registry whose one type has 32 operations that nest, one that removes, and then this one.
fn nesting(alloc: Global, last: &str) -> Result<String, AllocError> {
    let ops = r#"{"op":"wrapList","key":"a"},{"op":"moveInto","key":"a","into":"b"},"#.repeat(
        alloc, 16,
    )?;
    [
        r#"{"version":"7.12.0","types":[{"name":"a","kind":"single","migrations":["#,
        r#"{"version":"7.1.0","ops":["#,
        ops.as_str(),
        r#"{"op":"remove","key":"a"}]},{"version":"7.2.0","ops":[{"op":""#,
        last,
        r#"","key":"a"}]}]}]}"#,
    ]
    .concat(alloc)
}

/// Whether a type may have 32 operations that nest, and no 33rd.
fn nests_32_times(alloc: Global) -> Result<bool, AllocError> {
    let most = nesting(alloc, "remove")?;
    let more = nesting(alloc, "wrapList")?;
    Ok(is_refused(alloc, "read", &most)? && is_refused(alloc, "BadOp", &more)?)
}

const TYPES: &str = r#"{"line":"registry","version":"7.12.0","removed":["old"],"types":[
    {"name":"map","kind":"single","migrations":[
        {"version":"7.10.0","ops":[{"op":"rename","from":"a","to":"b"},{"op":"wrapList","key":"c"}]},
        {"version":"7.11.0","ops":[{"op":"remove","key":"b"}]}]},
    {"name":"dashboard","kind":"multiple-isolated","shareableAt":"7.12.0"}]}"#;

/// Whether a type has these many operations above each of its versions, without a stamp first.
fn has_operations_above(alloc: Global, reg: &Registry) -> Result<bool, AllocError> {
    let stamp = |minor: u64| {
        Some(Ver {
            major: 7,
            minor,
            patch: 0,
        })
    };
    let all = reg.ops_above(alloc, "map", None)?.len();
    let above = reg.ops_above(alloc, "map", stamp(10))?.len();
    let latest = reg.ops_above(alloc, "map", stamp(11))?.len();
    Ok(all == 3 && above == 1 && latest == 0)
}

fn lists_types(reg: &Registry) -> bool {
    reg.names().len() == 2 && reg.removed_names().len() == 1 && reg.is_removed("old")
}

fn tells_types(alloc: Global) -> Result<bool, AllocError> {
    let reg = registry(alloc, TYPES)?;
    Ok(lists_types(&reg) && has_operations_above(alloc, &reg)?)
}

#[test]
fn refuses_by_the_first_fault(rt: HostRuntime) -> Result<(), Fail> {
    for line in REFUSED.split('\n') {
        let (want, text) = split(line, " ");
        assert!(rt; is_refused(rt.alloc(), want, text)?, "{line}");
    }
    for line in REFUSED_TYPES.split('\n') {
        let (want, members) = split(line, " ");
        assert!(rt;
            is_refused_for_its_type(rt.alloc(), want, members)?,
            "{line}"
        );
    }
    Ok(())
}

#[test]
fn reads_registries(rt: HostRuntime) -> Result<(), Fail> {
    assert!(rt; nests_32_times(rt.alloc())?);
    assert!(rt; tells_types(rt.alloc())?);
    Ok(())
}
