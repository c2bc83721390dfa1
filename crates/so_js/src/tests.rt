ghost use Rattle.std.specs.Prelude.{◌≤◌};

use crate::{Js, JsError, member, parse, print};
use std::alloc::Global;
use std::test::Fail;

// What a text is printed as after it was read to this depth, or its refusal.
fn printed(alloc: Global, text: &str, depth: u32) -> Result<Vec<u8>, JsError>
    requires { depth ≤ 127 }
{
    let js = parse(alloc, text.as_bytes(), depth)?;
    Ok(print(alloc, &js)?.into_vec())
}

#[test]
fn reads_and_prints(rt: HostRuntime) -> Result<(), Fail> {
    let read = [
        (
            r#" {"b":[1,-2,"x"], "a":{"k":null,"k":true,"":false}}"#,
            r#"{"a":{"":false,"k":true},"b":[1,-2,"x"]}"#,
        ),
        (r#""\u00e9\n\/\"\u0001\ud83d\ude00""#, r#""é\n/\"\u0001😀""#),
        ("18446744073709551615", "18446744073709551615"),
        ("-9223372036854775808", "-9223372036854775808"),
        ("[[]]", "[[]]"),
        (r#"{"a":1.5,"a":[[{}]],"a":1}"#, r#"{"a":1}"#),
    ];
    for (text, want) in read {
        let bytes = printed(rt.alloc(), text, 2)?;
        assert_eq!(rt; bytes.as_slice(), want.as_bytes(), "{text}");
    }
    let refused = [
        ("18446744073709551616", JsError::Fraction),
        ("-9223372036854775809", JsError::Fraction),
        ("-0", JsError::Fraction),
        ("1.0", JsError::Fraction),
        ("1e2", JsError::Fraction),
        ("[[1.5]]", JsError::Fraction),
        ("[[[]]]", JsError::TooDeep),
        ("[[[1.5]]]", JsError::TooDeep),
        ("1e999", JsError::BadJson),
        (r#""\ud83d""#, JsError::BadJson),
        ("[[1.5]", JsError::BadJson),
        ("1 2", JsError::BadJson),
        ("", JsError::BadJson),
    ];
    for (text, want) in refused {
        let got = printed(rt.alloc(), text, 2).err();
        assert_eq!(rt; got, Some(want), "{text}");
    }
    let not_utf8 = parse(rt.alloc(), b"\"\xff\"", 2).err();
    assert_eq!(rt; not_utf8, Some(JsError::BadJson));
    Ok(())
}

#[test]
fn nests_to_127(rt: HostRuntime) -> Result<(), Fail> {
    let open = "[".repeat(rt.alloc(), 127)?;
    let closed = "]".repeat(rt.alloc(), 127)?;
    let text = format!(in rt.alloc(); "{open}{closed}")?;
    assert_eq!(rt;
        printed(rt.alloc(), &text, 127)?.as_slice(),
        text.as_bytes()
    );
    let text = format!(in rt.alloc(); "[{open}{closed}]")?;
    assert_eq!(rt;
        printed(rt.alloc(), &text, 127).err(),
        Some(JsError::BadJson)
    );
    Ok(())
}

#[test]
fn members_and_copies(rt: HostRuntime) -> Result<(), Fail> {
    let text = r#"{"a":"x","b":[7],"c":{"d":true}}"#;
    let js = parse(rt.alloc(), text.as_bytes(), 3)?.clone()?;
    let word = member(&js, "a").ok_or("a")?.as_text().ok_or("a text")?;
    assert_eq!(rt; word.as_str(), "x");
    let items = member(&js, "b").ok_or("b")?.as_items().ok_or("a list")?;
    assert!(rt; items.get(0).is_some_and(|item| item.as_whole() == Some(7)));
    let inner = member(&js, "c").ok_or("c")?;
    assert!(rt; inner.as_object().is_some_and(|members| members.len() == 1));
    assert!(rt; member(inner, "d").is_some_and(|d| d.as_bool() == Some(true)));
    assert!(rt; member(&js, "d").is_none() && member(&Js::Null, "d").is_none());
    Ok(())
}
