use crate::tally_of;
use std::test::*;

/// Two actors, eight actors, and five whose tickets cross the end of the words.
#[test]
fn actors_add_all(rt: HostRuntime) -> Result<(), Fail> {
    let table = [
        (2u64, 500u64, 0u64, 1000),
        (8, 200, 7, 1600),
        (5, 1, u64::MAX - 1, 5),
    ];
    for (actors, turns, first, all) in table {
        let mut lists = Vec::new(rt.alloc());
        for actor in 0..actors {
            lists.push(Vec::from_elem(rt.alloc(), actor, turns as usize)?)?;
        }
        assert!(rt; lists.len() <= 8);
        let tally = tally_of(&rt, rt.alloc(), 10, first, lists)?;
        assert!(rt; tally.added().len() == all, "of {actors} actors");
        for actor in 0..actors {
            let own = tally.added().iter().filter(|x| **x == actor).count();
            assert!(rt; own as u64 == turns, "of actor {actor} of {actors}");
        }
    }
    Ok(())
}
