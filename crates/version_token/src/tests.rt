use crate::{TokenError, Ver, decode, encode};
use std::test::Fail;

#[test]
fn versions(rt: HostRuntime) -> Result<(), Fail> {
    let read = [
        ("0.0.4", (0, 0, 4)),
        ("1.2.3", (1, 2, 3)),
        ("10.20.30", (10, 20, 30)),
        ("1.0.0", (1, 0, 0)),
        ("18446744073709551615.0.0", (u64::MAX, 0, 0)),
    ];
    for (text, (major, minor, patch)) in read {
        let version = Ver::parse(rt.alloc(), text).ok_or("a version")?;
        assert_eq!(rt;
            version,
            Ver {
                major,
                minor,
                patch
            },
            "{text}"
        );
        assert_eq!(rt; version.text(rt.alloc())?.as_str(), text);
    }
    let refused = [
        "",
        "1",
        "1.2",
        "1.2.3-0123",
        "1.2.3-0123.0123",
        "1.1.2+.123",
        "1.2.3+build",
        "1.0.0-alpha",
        "01.1.1",
        "1.01.1",
        "1.1.01",
        "1.2.3.DEV",
        "1.2-SNAPSHOT",
        "-1.0.3",
        "+1.0.3",
        "v1.2.3",
        " 1.2.3",
        "1.2.3 ",
        "18446744073709551616.0.0",
        "99999999999999999999999.999999999999999999.99999999999999999",
    ];
    for text in refused {
        assert!(rt; Ver::parse(rt.alloc(), text).is_none(), "{text}");
    }
    let low = Ver {
        major: 7,
        minor: 9,
        patch: 3,
    };
    let high = Ver {
        major: 7,
        minor: 10,
        patch: 0,
    };
    assert!(rt; low < high);
    Ok(())
}

#[test]
fn tokens(rt: HostRuntime) -> Result<(), Fail> {
    let read = [
        (0, "WzAsMV0="),
        (1, "WzEsMV0="),
        (2, "WzIsMV0="),
        (u64::MAX, "WzE4NDQ2NzQ0MDczNzA5NTUxNjE1LDFd"),
    ];
    for (number, token) in read {
        assert_eq!(rt; encode(rt.alloc(), number)?.as_str(), token);
        assert_eq!(rt; decode(rt.alloc(), token), Ok(number));
    }
    // `[1,2]`, `[1,1]` without padding, with bits left over and with blanks, `[+1,1]`, `[01,1]`,
    // `[18446744073709551616,1]`, `[,1]`, and texts that are no base64.
    let refused = [
        "WzEsMl0=",
        "WzEsMV0",
        "WzEsMV1=",
        "WzEsIDFd",
        "WysxLDFd",
        "WzAxLDFd",
        "WzE4NDQ2NzQ0MDczNzA5NTUxNjE2LDFd",
        "WywxXQ==",
        "",
        "x",
        "[1,1]",
    ];
    for text in refused {
        assert_eq!(rt;
            decode(rt.alloc(), text),
            Err(TokenError::BadToken),
            "{text}"
        );
    }
    Ok(())
}
