//! The operations of migrations: read, refused and done.
use crate::trees::{split, tree};
use so_js::print;
use std::alloc::{AllocError, Global};
use std::test::Fail;
use transform_ops::{OpError, apply, read_op};

/// An operation, attributes, and what it makes of them.
const DONE: &str = r#"{"op":"rename","from":"a","to":"b"} {"a":1,"c":2} {"b":1,"c":2}
{"op":"rename","from":"a","to":"b"} {"a":1,"b":2} {"a":1,"b":2}
{"op":"rename","from":"a","to":"a"} {"a":1} {"a":1}
{"op":"setDefault","key":"b","value":[{}]} {"a":1,"c":2} {"a":1,"b":[{}],"c":2}
{"op":"setDefault","key":"a","value":0} {"a":null} {"a":null}
{"op":"remove","key":"a"} {"a":1,"b":2} {"b":2}
{"op":"moveInto","key":"a","into":"b"} {"a":1,"b":{"a":0,"c":2}} {"b":{"a":1,"c":2}}
{"op":"moveInto","key":"z","into":"b"} {"a":1,"z":2} {"a":1,"b":{"z":2}}
{"op":"moveInto","key":"a","into":"b"} {"a":1,"b":[]} {"a":1,"b":[]}
{"op":"moveInto","key":"a","into":"a"} {"a":{}} {"a":{}}
{"op":"mapText","key":"a","table":{"x":"y","y":"z"}} {"a":"x"} {"a":"y"}
{"op":"mapText","key":"a","table":{"1":"y"}} {"a":1} {"a":1}
{"op":"wrapList","key":"a"} {"a":{}} {"a":[{}]}
{"op":"wrapList","key":"a"} {"a":[]} {"a":[]}"#;

fn is_done(alloc: Global, line: &str) -> Result<bool, AllocError> {
    let (op, rest) = split(line, " ");
    let (attributes, want) = split(rest, " ");
    let op = tree(alloc, op)?;
    let attributes = tree(alloc, attributes)?;
    let Ok(op) = read_op(alloc, &op) else {
        return Ok(false);
    };
    let changed = apply(alloc, &op, attributes)?;
    let got = print(alloc, &changed)?;
    Ok(got.as_slice() == want.as_bytes())
}

/// Trees that are no operations.
const REFUSED: &str = r#"{"op":"drop","key":"a"}
{"op":"remove"}
{"op":"remove","key":"a","into":"b"}
{"op":"rename","from":"a","to":1}
{"op":"mapText","key":"a","table":{"x":1}}
{"op":"mapText","key":"a","table":[]}
[]"#;

fn is_refused(alloc: Global, text: &str) -> Result<bool, AllocError> {
    let op = tree(alloc, text)?;
    match read_op(alloc, &op) {
        Ok(_) => Ok(false),
        Err(error) => Ok(error == OpError::BadOp),
    }
}

#[test]
fn does_operations(rt: HostRuntime) -> Result<(), Fail> {
    for line in DONE.split('\n') {
        assert!(rt; is_done(rt.alloc(), line)?, "{line}");
    }
    for line in REFUSED.split('\n') {
        assert!(rt; is_refused(rt.alloc(), line)?, "{line}");
    }
    Ok(())
}
