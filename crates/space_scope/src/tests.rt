use super::*;
use std::test::Fail;

#[test]
fn reads_spaces(rt: HostRuntime) -> Result<(), Fail> {
    let letters = "aaaaaaaaaaaaaaaaaaaaaaaaaaaaaaaaaaaaaaaaaaaaaaaaaaaaaaaaaaaaaaaa";
    let cases = [
        ("default", Some("default")),
        ("a", Some("a")),
        ("a_b-9", Some("a_b-9")),
        (letters, Some(letters)),
        (
            "aaaaaaaaaaaaaaaaaaaaaaaaaaaaaaaaaaaaaaaaaaaaaaaaaaaaaaaaaaaaaaaaa",
            None,
        ),
        ("", None),
        ("A", None),
        ("a.b", None),
        ("*", None),
        ("ä", None),
    ];
    for (text, want) in cases {
        match Space::read(rt.alloc(), text) {
            Ok(space) => assert_eq!(rt; Some(space.text()), want),
            Err(error) => assert_eq!(rt; (Some(error), want), (Some(SpaceError::BadSpace), None)),
        }
    }
    let id = SpaceId::new(rt.alloc(), "a")?;
    let copy = id.clone()?;
    assert!(rt; Space::Named(id) == Space::Named(copy));
    assert_eq!(rt;
        SpaceId::new(rt.alloc(), "default").map(|_| ()),
        Err(SpaceError::BadSpace)
    );
    Ok(())
}
