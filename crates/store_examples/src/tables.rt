use doc_table::{DocTable, Item, ListTable, Row, Write};
use plain_data::Text;
use rand_core::{Rng, SeedableRng};
use rand_pcg::Pcg32;
use saved_doc::{SharedDoc, from_owned_js};
use std::alloc::{AllocError, Global};
use std::test::Fail;

const LIMIT: u64 = 1 << 63;

/// A document that tells its number.
fn doc_of(alloc: Global, n: u64) -> Result<SharedDoc, AllocError> {
    let text = format!(in alloc; r#"{{"originId":"{n}","t":{{}},"type":"t"}}"#)?;
    let Ok(js) = so_js::parse(alloc, text.as_bytes(), 4) else {
        return Err(AllocError);
    };
    match from_owned_js(alloc, js) {
        Ok(doc) => SharedDoc::new(alloc, doc),
        Err(_) => Err(AllocError),
    }
}

fn raw_of(alloc: Global, n: u64) -> Result<Text, AllocError> {
    Ok(Text::from_string(format!(in alloc; "t:{n:05}")?))
}

fn is_same_row(x: &Row, y: &Row) -> bool {
    x.raw == y.raw && x.seq == y.seq && x.doc.get().origin == y.doc.get().origin
}

fn are_same(xs: &[Row], ys: &[Row]) -> bool {
    xs.len() == ys.len() && xs.iter().zip(ys).all(|(x, y)| is_same_row(x, y))
}

fn apply_to(table: &mut DocTable, write: Write) -> Result<Option<Item>, AllocError> {
    if table.next() >= LIMIT {
        return Ok(None);
    }
    let item = table.apply(write)?;
    Ok(Some(item))
}

fn put_rows(alloc: Global, table: &mut DocTable, doc: &SharedDoc) -> Result<bool, AllocError> {
    for n in 0..100_000u64 {
        let raw = raw_of(alloc, n.wrapping_mul(7_919) % 100_003)?;
        let put = Write::Put {
            raw,
            doc: doc.clone()?,
            expect: None,
        };
        if apply_to(table, put)? != Some(Item::Written(n)) {
            return Ok(false);
        }
    }
    Ok(true)
}

#[test]
fn snapshots_keep_their_rows(rt: HostRuntime) -> Result<(), Fail> {
    let alloc = rt.alloc();
    let mut table = DocTable::empty(alloc);
    for n in 0..130 {
        assert!(rt; table.next() < LIMIT);
        let item = table.create(raw_of(alloc, n)?, doc_of(alloc, n)?)?;
        assert_eq!(rt; item, Item::Written(n));
    }
    let snapshot = table.snapshot()?;
    assert!(rt; table.next() < LIMIT);
    let item = table.delete(raw_of(alloc, 64)?.as_str(), Some(64));
    assert_eq!(rt; item, Item::Written(130));
    assert!(rt; table.next() < LIMIT);
    let item = table.put(raw_of(alloc, 0)?, doc_of(alloc, 1_000)?, Some(0))?;
    assert_eq!(rt; item, Item::Written(131));
    assert_eq!(rt; table.next(), 132);
    assert_eq!(rt; table.take_after(None, 1_000)?.len(), 129);
    let kept = snapshot.take_after(None, 1_000)?;
    assert_eq!(rt; kept.len(), 130);
    assert_eq!(rt; snapshot.next(), 130);
    assert!(rt;
        are_same(
            kept.as_slice(),
            snapshot.renumbered()?.take_after(None, 1_000)?.as_slice()
        )
    );
    Ok(())
}

// Copies of all rows would take more than eight gigabytes.
#[test]
fn many_snapshots(rt: HostRuntime) -> Result<(), Fail> {
    let alloc = rt.alloc();
    let mut table = DocTable::empty(alloc);
    let doc = doc_of(alloc, 0)?;
    assert!(rt; put_rows(alloc, &mut table, &doc)?);
    let mut kept = Vec::new(alloc);
    for _ in 0..2_000 {
        kept.push(table.snapshot()?)?;
    }
    assert!(rt; kept.iter().all(|snapshot| snapshot.next() == 100_000));
    Ok(())
}

/// The two programs, and a snapshot of each.
#[derive(Drop)]
struct Both {
    table: DocTable,
    list: ListTable,
    old_table: DocTable,
    old_list: ListTable,
}

fn apply_to_both(both: &mut Both, write: Write) -> Result<bool, AllocError> {
    if both.list.next() >= LIMIT {
        return Ok(false);
    }
    let want = both.list.apply(write.clone()?)?;
    Ok(apply_to(&mut both.table, write)? == Some(want))
}

fn are_equal(
    table: &DocTable,
    list: &ListTable,
    after: Option<&str>,
    n: u64,
) -> Result<bool, AllocError> {
    let want = list.take_after(after, n)?;
    let got = table.take_after(after, n)?;
    Ok(are_same(got.as_slice(), want.as_slice()) && table.next() == list.next())
}

fn lends_its_rows(table: &DocTable) -> Result<bool, AllocError> {
    let want = table.take_after(None, 100_000)?;
    let mut rows = table.rows();
    for row in want.as_slice() {
        match rows.next() {
            Some(read) if is_same_row(read, row) => {}
            _ => return Ok(false),
        }
    }
    Ok(rows.next().is_none())
}

fn finds_the_same(both: &Both, raw: &str) -> bool {
    match (both.table.get(raw), both.list.get(raw)) {
        (None, None) => true,
        (Some(x), Some(y)) => is_same_row(x, y),
        _ => false,
    }
}

/// No number, the right one, or another.
fn expected(random: &mut Pcg32, both: &Both, raw: &str) -> Option<u64> {
    match (random.next_u32() % 3, both.list.get(raw)) {
        (0, _) => None,
        (1, Some(row)) => Some(row.seq),
        _ => Some(u64::from(random.next_u32() % 9)),
    }
}

fn one_step(
    alloc: Global,
    random: &mut Pcg32,
    both: &mut Both,
    ids: u32,
    step: u32,
) -> Result<bool, AllocError> {
    let id = random.next_u32().checked_rem(ids).unwrap_or(0);
    let raw = raw_of(alloc, u64::from(id))?;
    let doc = doc_of(alloc, u64::from(step))?;
    let expect = expected(random, both, raw.as_str());
    if !finds_the_same(both, raw.as_str()) {
        return Ok(false);
    }
    match random.next_u32() % 64 {
        0..=19 => apply_to_both(both, Write::Create { raw, doc }),
        20..=39 => apply_to_both(both, Write::Put { raw, doc, expect }),
        40..=55 => apply_to_both(both, Write::Delete { raw, expect }),
        56..=59 => are_equal(&both.table, &both.list, Some(raw.as_str()), u64::from(id)),
        60..=62 => {
            let same = are_equal(&both.old_table, &both.old_list, None, 100_000)?;
            both.old_table = both.table.snapshot()?;
            both.old_list = both.list.snapshot()?;
            Ok(same)
        }
        _ => {
            both.list = both.list.renumbered()?;
            both.table = both.table.renumbered()?;
            Ok(true)
        }
    }
}

fn steps_agree(alloc: Global, seed: u64, ids: u32, steps: u32) -> Result<bool, AllocError> {
    let mut random = Pcg32::seed_from_u64(seed);
    let mut both = Both {
        table: DocTable::empty(alloc),
        list: ListTable::empty(alloc),
        old_table: DocTable::empty(alloc),
        old_list: ListTable::empty(alloc),
    };
    for step in 0..steps {
        if !one_step(alloc, &mut random, &mut both, ids, step)? {
            return Ok(false);
        }
    }
    Ok(are_equal(&both.table, &both.list, None, 100_000)? && lends_its_rows(&both.table)?)
}

#[test]
fn both_tables_agree(rt: HostRuntime) -> Result<(), Fail> {
    let alloc = rt.alloc();
    assert!(rt; steps_agree(alloc, 1, 40, 2_000)?);
    assert!(rt; steps_agree(alloc, 2, 300, 4_000)?);
    assert!(rt; steps_agree(alloc, 3, 2_000, 6_000)?);
    Ok(())
}
