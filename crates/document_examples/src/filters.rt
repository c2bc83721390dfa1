//! Filters of objects: which texts are filters, up to their limits, and what each selects.
use crate::trees::{split, tree};
use kql_filter::{FilterError, holds, read};
use so_js::Js;
use std::alloc::{AllocError, Global};
use std::test::Fail;

/// The objects that each filter selects.
const SELECTED: &str = r#"d1 = dashboard.attributes.title: S* and not dashboard.attributes.n > 3
d3 = dashboard.attributes.n >= 7
d1 d3 = dashboard.attributes.n: 1
none = dashboard.attributes.title: "Sal*"
d3 = NOT dashboard.attributes.title: *
d1 d2 d3 = (dashboard.attributes.n < 2 or dashboard.attributes.title:Stock)
d1 d3 = dashboard.attributes.n:1 or dashboard.attributes.n:5 and dashboard.attributes.n:9
d2 = (dashboard.attributes.n:1 or dashboard.attributes.n:5) aND dashboard.attributes.n:5
d1 d2 d3 = dashboard.attributes.n<=1  Or  dashboard.attributes.n  :  5
d1 d3 = not not dashboard.attributes.n:01"#;

/// Whether a filter selects an object exactly where its name stands before the filter.
fn selects(alloc: Global, line: &str, name: &str, object: &str) -> Result<bool, AllocError> {
    let (names, text) = split(line, " = ");
    let object = tree(alloc, object)?;
    let Ok(filter) = read(alloc, text) else {
        return Ok(false);
    };
    let copy = filter.clone()?;
    Ok(holds(&copy, "dashboard", &object) == names.contains(name))
}

fn selects_each(alloc: Global, line: &str) -> Result<bool, AllocError> {
    Ok(
        selects(alloc, line, "d1", r#"{"n":1,"title":"Sales"}"#)?
            && selects(alloc, line, "d2", r#"{"n":5,"title":"Stock"}"#)?
            && selects(alloc, line, "d3", r#"{"n":[7,1]}"#)?,
    )
}

/// Filters with what each says of the object below.
const VALUES: &str = r#"yes = dashboard.attributes.n:-03
no = dashboard.attributes.n:3
yes = dashboard.attributes.n>-4
no = dashboard.attributes.n<-3
no = dashboard.attributes.n:-*
yes = dashboard.attributes.t:01
no = dashboard.attributes.t:1
no = dashboard.attributes.t<2
yes = dashboard.attributes.a.b:true
no = dashboard.attributes.a.b:True
no = dashboard.attributes.a.b:"true"
yes = dashboard.attributes.a:*
yes = dashboard.attributes.u:*
no = dashboard.attributes.v:*
yes = dashboard.attributes.a.:*
yes = dashboard.attributes.a.:"x y"
no = dashboard.attributes.a.:null
no = dashboard.attributes.:*
no = dashboard.attributes:*
no = map.attributes.n:*"#;

const OBJECT: &str = r#"{"a":{"b":true,"":[[null,"x y"]]},"n":-3,"t":"01","u":{},"v":[]}"#;

/// Texts that are no filters, with `|` between them.
const REFUSED: &str = "| |title:|a: not|a:Or|a|a b:c|:b|and:b|a:b and|a:b or |a:b andc:d|\
    a:band c:d|a:b xor c:d|a:b c:d|not|not(a:b)|not:b|(a:b|a:b)|()|(a:b)(c:d)|a:**|a:b*c|\
    a:\"b|a:\"b\\c\"|a:\"b\"c|a<b|a< =1|a=1|a<1a|a<1.5|a<|a<-|a<18446744073709551616|\
    a<-9223372036854775809|a<000000000000000000001|a\t:b|ä:b";

fn is_refused(alloc: Global, text: &str) -> bool {
    match read(alloc, text) {
        Ok(_) => false,
        Err(error) => error == FilterError::BadFilter,
    }
}

/// Texts that are filters.
const FILTERS: &str = "a<18446744073709551615|a>=-9223372036854775808|a<00000000000000000001|\
    a:99999999999999999999999|a:\"\\\"\\\\ä and )\"|a:\"\"|((a:b) or (not c:d))|not-a:b|a:*";

fn is_filter(alloc: Global, text: &str) -> bool {
    match read(alloc, text) {
        Ok(filter) => filter.text() == text,
        Err(_) => false,
    }
}

/// Whether a piece that is written this often before an end is read as a filter.
fn is_read(alloc: Global, piece: &str, times: usize, end: &str) -> Result<bool, AllocError> {
    let pieces = piece.repeat(alloc, times)?;
    let text = [pieces.as_str(), end].concat(alloc)?;
    match read(alloc, &text) {
        Ok(filter) => Ok(!holds(&filter, "a", &Js::Null)),
        Err(_) => Ok(false),
    }
}

/// A filter nests 64 deep and has 4,096 bytes, and a chain then 585 items.
fn reads_to_the_limits(alloc: Global) -> Result<bool, AllocError> {
    Ok(
        is_read(alloc, "not ", 64, "a:b")?
            && is_read(alloc, "b", 4_094, ":b")?
            && is_read(alloc, "a:b or ", 584, "a:b")?
            && is_read(alloc, "a:b and ", 511, "a:b")?,
    )
}

fn reads_past_the_limits(alloc: Global) -> Result<bool, AllocError> {
    Ok(is_read(alloc, "not ", 65, "a:b")? || is_read(alloc, "b", 4_095, ":b")?)
}

#[test]
fn selects_objects(rt: HostRuntime) -> Result<(), Fail> {
    for line in SELECTED.split('\n') {
        assert!(rt; selects_each(rt.alloc(), line)?, "{line}");
    }
    for line in VALUES.split('\n') {
        assert!(rt; selects(rt.alloc(), line, "yes", OBJECT)?, "{line}");
    }
    Ok(())
}

#[test]
fn reads_only_filters(rt: HostRuntime) -> Result<(), Fail> {
    for text in REFUSED.split('|') {
        assert!(rt; is_refused(rt.alloc(), text), "{text}");
    }
    for text in FILTERS.split('|') {
        assert!(rt; is_filter(rt.alloc(), text), "{text}");
    }
    assert!(rt; reads_to_the_limits(rt.alloc())?);
    assert!(rt; !reads_past_the_limits(rt.alloc())?);
    Ok(())
}
