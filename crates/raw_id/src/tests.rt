use crate::{RawError, is_type, raw_of, target_of, temp_of, version_alias_of, version_in};
use space_scope::{Kind, Space};
use std::test::Fail;
use version_token::Ver;

#[test]
fn raw_ids(rt: HostRuntime) -> Result<(), Fail> {
    let rows = [
        (Kind::Single, "a", "dashboard", "d1", Ok("a:dashboard:d1")),
        (
            Kind::Single,
            "default",
            "dashboard",
            "d1",
            Ok("dashboard:d1"),
        ),
        (Kind::Agnostic, "a", "config", "7", Ok("config:7")),
        (Kind::Multiple, "a", "tag", "t:1", Ok("tag:t:1")),
        (Kind::MultipleIsolated, "a", "tag", "t1", Ok("tag:t1")),
        (Kind::Single, "a", "type", "x", Err(RawError::BadType)),
        (Kind::Single, "a", "", "", Err(RawError::BadType)),
        (Kind::Single, "a", "map", "", Err(RawError::BadId)),
    ];
    for (kind, space, name, id, want) in rows {
        let space = Space::read(rt.alloc(), space).ok().ok_or("a space")?;
        match raw_of(rt.alloc(), kind, &space, name, id) {
            Ok(raw) => assert_eq!(rt; want, Ok(raw.as_str())),
            Err(error) => assert_eq!(rt; want.map(|s| s.len()), Err(error)),
        }
    }
    assert!(rt; is_type("index-pattern") && !is_type("updated_at") && !is_type("a:b"));
    Ok(())
}

#[test]
fn index_names(rt: HostRuntime) -> Result<(), Fail> {
    let version = Ver {
        major: 7,
        minor: 12,
        patch: 0,
    };
    assert_eq!(rt;
        version_alias_of(rt.alloc(), version)?.as_str(),
        ".kibana_7.12.0"
    );
    assert_eq!(rt;
        target_of(rt.alloc(), version)?.as_str(),
        ".kibana_7.12.0_001"
    );
    assert_eq!(rt;
        temp_of(rt.alloc(), version)?.as_str(),
        ".kibana_7.12.0_reindex_temp"
    );
    let rows = [
        (".kibana_7.12.0_001", Some(version)),
        (".kibana_7.12.0_2", Some(version)),
        (".kibana_7.12.0_", None),
        (".kibana_7.12.0", None),
        (".kibana_7.12.0_reindex_temp", None),
        (".kibana_7.12.0_00a", None),
        (".kibana_7.12.0_001_001", None),
        (".kibana_7.12_001", None),
        (".kibana_007.12.0_001", None),
        (".kibana_1", None),
        (".kibana", None),
        ("kibana_7.12.0_001", None),
    ];
    for (name, want) in rows {
        assert_eq!(rt; version_in(rt.alloc(), name), want, "{name}");
    }
    Ok(())
}
