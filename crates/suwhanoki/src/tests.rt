//! Runs of `plain` over sources and sinks in memory: worked inputs with what they write,
//! refusals of each kind, and a failing call of the source and of the sink.
use kibana_main::plain;
use plain_data::{List, Text};
use std::alloc::{AllocError, Global};
use std::test::Fail;
use wire_io::{MemSink, MemSource};

// No call has this number.
const NEVER: u64 = u64::MAX;

/// Runs the command of this one word, and answers the number of the status and the sink. Reads give
/// 16 bytes at most.
fn run(
    alloc: Global,
    word: &str,
    input: &str,
    failing_read: u64,
    failing_write: u64,
) -> Result<(u8, MemSink), AllocError> {
    let mut words = List::new(alloc);
    words.push(Text::from_str(alloc, word)?)?;
    let bytes = List::from_slice(alloc, input.as_bytes())?;
    let mut source = MemSource::new(bytes, 16, List::from_slice(alloc, &[failing_read])?);
    let mut sink = MemSink::new(alloc, List::from_slice(alloc, &[failing_write])?);
    let status = plain(alloc, &words, &mut source, &mut sink);
    Ok((status.number(), sink))
}

// two documents and each kind of call, with an empty line and a line of a carriage return alone among them
const CALLS: &str = concat!(
    r#"{"line":"registry","version":"7.12.0","types":[{"name":"dashboard","kind":"multiple-isolated"},{"name":"tag","kind":"multiple"}]}
{"line":"doc","raw":"dashboard:n1","doc":{"type":"dashboard","dashboard":{},"references":[],"namespaces":["a"]}}
{"line":"doc","raw":"legacy-url-alias:a:dashboard:d1","doc":{"type":"legacy-url-alias","references":[],"legacy-url-alias":{"sourceId":"d1","targetId":"n1","targetNamespace":"a","targetType":"dashboard"}}}

{"line":"call","call":{"do":"resolve","type":"dashboard","id":"d1","space":"a"}}
{"line":"call","call":{"do":"create","type":"tag","id":"t1","attributes":{}}}
"#,
    "\r\n",
    r#"{"line":"call","call":{"do":"update","type":"tag","id":"t1","attributes":{"x":1},"version":"WzIsMV0="}}
{"line":"call","call":{"do":"get","type":"tag","id":"t1"}}
{"line":"call","call":{"do":"bulkCreate","objects":[{"type":"tag","id":"t2","attributes":{"n":1,"title":"Sales"}},{"type":"tag","id":"t1","attributes":{}}]}}
{"line":"call","call":{"do":"bulkGet","objects":[{"type":"tag","id":"t2"},{"type":"tag","id":"t3"}]}}
{"line":"call","call":{"do":"find","types":["tag"],"filter":"tag.attributes.title: S* and not tag.attributes.n > 3"}}
{"line":"call","call":{"do":"share","type":"tag","id":"t1","add":["a"],"remove":[]}}
{"line":"call","call":{"do":"delete","type":"tag","id":"t1"}}

{"line":"call","call":{"do":"delete","type":"tag","id":"t1","force":true}}"#
);

const ANSWERS: &str =
    r#"{"answer":{"ok":{"aliasTargetId":"n1","object":{"attributes":{},"id":"n1","namespaces":["a"],"references":[],"type":"dashboard","version":"WzAsMV0="},"outcome":"aliasMatch"}},"at":5,"line":"answer"}
{"answer":{"ok":{"attributes":{},"coreMigrationVersion":"7.12.0","id":"t1","namespaces":["default"],"references":[],"type":"tag","version":"WzIsMV0="}},"at":6,"line":"answer"}
{"answer":{"ok":{"attributes":{"x":1},"coreMigrationVersion":"7.12.0","id":"t1","namespaces":["default"],"references":[],"type":"tag","version":"WzMsMV0="}},"at":8,"line":"answer"}
{"answer":{"ok":{"attributes":{"x":1},"coreMigrationVersion":"7.12.0","id":"t1","namespaces":["default"],"references":[],"type":"tag","version":"WzMsMV0="}},"at":9,"line":"answer"}
{"answer":{"ok":[{"ok":{"attributes":{"n":1,"title":"Sales"},"coreMigrationVersion":"7.12.0","id":"t2","namespaces":["default"],"references":[],"type":"tag","version":"WzQsMV0="}},{"error":{"code":2,"name":"Conflict"}}]},"at":10,"line":"answer"}
{"answer":{"ok":[{"ok":{"attributes":{"n":1,"title":"Sales"},"coreMigrationVersion":"7.12.0","id":"t2","namespaces":["default"],"references":[],"type":"tag","version":"WzQsMV0="}},{"error":{"code":1,"name":"NotFound"}}]},"at":11,"line":"answer"}
{"answer":{"ok":{"objects":[{"attributes":{"n":1,"title":"Sales"},"coreMigrationVersion":"7.12.0","id":"t2","namespaces":["default"],"references":[],"type":"tag","version":"WzQsMV0="}],"page":1,"perPage":20,"total":1}},"at":12,"line":"answer"}
{"answer":{"ok":{"namespaces":["default","a"]}},"at":13,"line":"answer"}
{"answer":{"error":{"code":9,"name":"NeedsForce"}},"at":14,"line":"answer"}
{"answer":{"ok":{}},"at":16,"line":"answer"}
"#;

/// Whether a run over the calls ends with this status and writes this text.
fn ends(
    alloc: Global,
    word: &str,
    failing_read: u64,
    failing_write: u64,
    status: u8,
    text: &str,
) -> Result<bool, AllocError> {
    let (number, sink) = run(alloc, word, CALLS, failing_read, failing_write)?;
    Ok(number == status && sink.held() == text.as_bytes())
}

/// Whether a run over the calls meets a fault, and writes nothing, whichever of its first reads
/// fails.
fn meets_each_fault(alloc: Global, reads: u64) -> Result<bool, AllocError> {
    for failing in 0..reads {
        if !ends(alloc, "apply", failing, NEVER, 4, "")? {
            return Ok(false);
        }
    }
    Ok(true)
}

#[test]
fn answers_calls(rt: HostRuntime) -> Result<(), Fail> {
    let alloc = rt.alloc();
    assert!(rt; ends(alloc, "apply", NEVER, NEVER, 0, ANSWERS)?);
    assert!(rt; ends(alloc, "applY", NEVER, NEVER, 2, "{\"fault\":\"Usage\"}\n")?);
    assert!(rt; ends(alloc, "apply", NEVER, 0, 5, "")?);
    // the last line ends at the end of the input, which is read once more
    let reads = CALLS.len() as u64 / 16 + 3;
    assert!(rt; meets_each_fault(alloc, reads)?);
    assert!(rt; ends(alloc, "apply", reads, NEVER, 0, ANSWERS)?);
    Ok(())
}

const REGISTRY: &str =
    r#"{"line":"registry","version":"7.12.0","types":[{"name":"dashboard","kind":"single"}]}
"#;

const DOC: &str =
    r#"{"line":"doc","raw":"dashboard:x","doc":{"type":"dashboard","dashboard":{},"references":[]}}
"#;

const CALL: &str = r#"{"line":"call","call":{"do":"get","type":"dashboard","id":"x"}}
"#;

// the kind of each refusal, what stands in the two lines before it, and the third line. These are
// empty at `E`; at the other letters they end with a registry, at `D` with a document after it,
// and at `C` with a call after it
const REFUSED: &str = r#"BadJson R {"line":
BadJson R  
TooDeep R {"line":"call","call":[[[[[[[[[[[[[[[[[[[[[[[[[[[[[[[[[[[[[[[[[[[[[[[[[[[[[[[[[[[[[[[[]]]]]]]]]]]]]]]]]]]]]]]]]]]]]]]]]]]]]]]]]]]]]]]]]]]]]]]]]]]]]]]]}
Fraction R {"line":"call","call":{"do":"get","type":"dashboard","id":1e2}}
Fraction R {"line":"call","call":{"do":"create","type":"dashboard","id":"a","attributes":{"x":1.5}}}
NotObject R []
UnknownLine R {"line":"dock"}
MissingField R {"x":1}
MissingField R {"line":"call"}
MissingField R {"line":"call","call":{"do":"get","id":1,"x":1}}
WrongKind R {"line":1}
WrongKind R {"line":"call","call":{"do":"got"}}
WrongKind R {"line":"call","call":{"do":"create","type":"a","id":"a","attributes":[],"at":1}}
UnknownField R {"line":"call","call":{"do":"get","type":"dashboard","id":"x"},"x":1}
UnknownField R {"line":"call","call":{"do":"get","type":"dashboard","id":"x","x":1}}
BadVersion R {"line":"call","call":{"do":"create","type":"dashboard","id":"d","attributes":{},"migrationVersion":{"dashboard":"7"}}}
BadVersion E {"line":"registry","version":"7.12.0-a","types":1}
BadSpace R {"line":"doc","raw":"a:dashboard:d","doc":{"type":"dashboard","dashboard":{},"references":[],"namespace":"A"}}
BadSpace R {"line":"doc","raw":"dashboard:d","doc":{"type":"dashboard","dashboard":{},"references":[],"namespace":"default"}}
BadId R {"line":"doc","raw":"","doc":{"type":"dashboard","dashboard":{},"references":[]}}
BadType E {"line":"registry","version":"7.12.0","types":[{"name":"type"}]}
BadType E {"line":"registry","version":"7.12.0","types":[],"removed":["a:b"]}
DuplicateType E {"line":"registry","version":"7.12.0","types":[{"name":"a","kind":"single"},{"name":"a"}]}
DuplicateType E {"line":"registry","version":"7.12.0","types":[{"name":"legacy-url-alias"}]}
BadKind E {"line":"registry","version":"7.12.0","types":[{"name":"a","kind":"double"}]}
BadKind E {"line":"registry","version":"7.12.0","types":[{"name":"a","kind":"single","shareableAt":"7.12.0"}]}
UnsortedVersions E {"line":"registry","version":"7.12.0","types":[{"name":"a","kind":"single","migrations":[{"version":"7.11.0","ops":[]},{"version":"7.10.0","ops":[]}]}]}
BadOp E {"line":"registry","version":"7.12.0","types":[{"name":"a","kind":"single","migrations":[{"version":"7.11.0","ops":[{"op":"drop","key":"x"}]}]}]}
DuplicateRegistry R {"line":"registry","version":"7.12.0","types":[{"name":"dashboard","kind":"single"}]}
DuplicateDoc D {"line":"doc","raw":"dashboard:x","doc":{"type":"dashboard","dashboard":{},"references":[]}}
Unplaced R {"line":"event","event":"step","instance":1}
Unplaced E {"line":"call"}
Unplaced C {"line":"doc"}
NotBuilt R {"line":"import"}
NotBuilt R {"line":"resolveImport"}
NotBuilt R {"line":"export"}"#;

/// Whether an input is refused at the line after these two, and for this cause. A further line,
/// which is no JSON, comes too late.
fn is_refused_after(
    alloc: Global,
    kind: &str,
    one: &str,
    two: &str,
    line: &str,
) -> Result<bool, AllocError> {
    let input = [one, two, line, "\n["].concat(alloc)?;
    let want = [
        "{\"at\":3,\"fault\":\"BadInput\",\"kind\":\"",
        kind,
        "\"}\n",
    ]
    .concat(alloc)?;
    let (status, sink) = run(alloc, "apply", &input, NEVER, NEVER)?;
    Ok(status == 3 && sink.held() == want.as_bytes())
}

/// Whether the input of a case is refused as its first word says.
fn is_refused(alloc: Global, case: &str) -> Result<bool, AllocError> {
    let (kind, rest) = case.split_once(' ').unwrap_or(("", ""));
    let (before, line) = rest.split_once(' ').unwrap_or(("", ""));
    let (one, two) = match before {
        "R" => ("\n", REGISTRY),
        "D" => (REGISTRY, DOC),
        "C" => (REGISTRY, CALL),
        _ => ("\n", "\n"),
    };
    is_refused_after(alloc, kind, one, two, line)
}

#[test]
fn refuses_lines(rt: HostRuntime) -> Result<(), Fail> {
    for case in REFUSED.split('\n') {
        assert!(rt; is_refused(rt.alloc(), case)?, "{case}");
    }
    Ok(())
}

/// Whether a bulkGet of zeros, this many and one more, is refused for this cause.
fn refuses_zeros(alloc: Global, kind: &str, count: usize) -> Result<bool, AllocError> {
    let zeros = "0,".repeat(alloc, count)?;
    let line = [
        r#"{"line":"call","call":{"do":"bulkGet","objects":["#,
        &zeros,
        "0]}}",
    ]
    .concat(alloc)?;
    is_refused_after(alloc, kind, "\n", REGISTRY, &line)
}

#[test]
fn counts_objects(rt: HostRuntime) -> Result<(), Fail> {
    assert!(rt; refuses_zeros(rt.alloc(), "WrongKind", 9_999)?);
    assert!(rt; refuses_zeros(rt.alloc(), "BadNumber", 10_000)?);
    Ok(())
}
