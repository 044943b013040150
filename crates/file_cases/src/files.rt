use crate::made::{made, sized};
use file::checked::File;
use record::row::Row;
use std::process::Abort;
use std::test::Fail;

// The number and place of the refusal, 0 and 0 where the file passes.
fn answer(bytes: &[u8]) -> (u32, u32) {
    match File::check(bytes) {
        Ok(_) => (0, 0),
        Err(refusal) => (refusal.number(), refusal.place()),
    }
}

#[test]
fn counts_at_their_limits(rt: HostRuntime) -> Result<(), Fail> {
    let table = [
        (0, 0, 0, 2),
        (1, 0, 0, 0),
        (1024, 0, 0, 0),
        (1025, 0, 0, 2),
        (1, 2048, 0, 0),
        (1, 2049, 0, 2),
        (1, 0, 16384, 0),
        (1, 0, 16385, 2),
        (1024, 2048, 14338, 0),
        (1024, 2048, 14339, 2),
    ];
    for (texts, rows, tail, expected) in table {
        let file = sized(rt.alloc(), texts, rows, tail)?;
        assert_eq!(rt; answer(file.as_slice()), (expected, 0));
    }
    Ok(())
}

#[test]
fn lengths(rt: HostRuntime) -> Result<(), Fail> {
    let mut file = sized(rt.alloc(), 3, 2, 5)?;
    assert_eq!(rt; answer(file.as_slice()), (0, 0));
    file.push(0)?;
    assert_eq!(rt; answer(file.as_slice()), (3, 0));
    file.truncate(76);
    assert_eq!(rt; answer(file.as_slice()), (3, 0));
    file.truncate(12);
    assert_eq!(rt; answer(file.as_slice()), (3, 0));
    file.truncate(11);
    assert_eq!(rt; answer(file.as_slice()), (1, 0));
    assert_eq!(rt; answer(b""), (1, 0));
    Ok(())
}

fn placed(
    rt: &(impl Abort + AllocGlobal),
    pairs: &[(u32, u32)],
    expected: (u32, u32),
) -> Result<(), Fail> {
    let file = made(rt.alloc(), pairs, &[], b"TestFlowTest")?;
    assert_eq!(rt; answer(file.as_slice()), expected);
    Ok(())
}

#[test]
fn first_pair(rt: HostRuntime) -> Result<(), Fail> {
    placed(&rt, &[(0, 0)], (0, 0))?;
    placed(&rt, &[(0, 1)], (4, 0))?;
    placed(&rt, &[(1, 0)], (4, 0))
}

#[test]
fn order_and_ends(rt: HostRuntime) -> Result<(), Fail> {
    placed(&rt, &[(0, 0), (0, 4), (4, 4)], (0, 0))?;
    placed(&rt, &[(0, 0), (0, 4), (3, 4)], (4, 2))?;
    placed(&rt, &[(0, 0), (1, 3), (5, 7)], (0, 0))?;
    placed(&rt, &[(0, 0), (1, 3), (5, 8)], (4, 2))?;
    placed(&rt, &[(0, 0), (12, 1)], (4, 1))?;
    placed(&rt, &[(0, 0), (13, 0)], (4, 1))?;
    placed(&rt, &[(0, 0), (4294967295, 2)], (4, 1))?;
    placed(&rt, &[(0, 0), (4294967295, 4294967295)], (4, 1))
}

#[test]
fn repeated_texts(rt: HostRuntime) -> Result<(), Fail> {
    placed(&rt, &[(0, 0), (0, 0)], (5, 1))?;
    placed(&rt, &[(0, 0), (0, 4), (8, 0)], (5, 2))?;
    placed(&rt, &[(0, 0), (0, 4), (4, 4), (8, 4)], (5, 3))?;
    placed(&rt, &[(0, 0), (0, 4), (4, 4), (8, 3)], (0, 0))?;
    placed(&rt, &[(0, 0), (0, 1), (3, 1), (8, 1), (11, 1)], (5, 3))?;
    placed(&rt, &[(0, 0), (0, 4), (8, 4), (8, 4)], (4, 3))
}

#[test]
fn texts_and_rows_are_read_back(rt: HostRuntime) -> Result<(), Fail> {
    let rows = [
        Row {
            kind: 1,
            a: 0,
            b: 1,
            c: 0,
        },
        Row {
            kind: 4294967295,
            a: 16777216,
            b: 65536,
            c: 256,
        },
    ];
    let bytes = made(rt.alloc(), &[(0, 0), (0, 4), (5, 3)], &rows, b"TestFlow")?;
    let file = File::check(bytes.as_slice()).map_err(|_| Fail::new("refused"))?;
    let texts = file.texts();
    assert!(rt; texts.count() == 3);
    assert!(rt; texts.at(0) == b"".as_slice());
    assert!(rt; texts.at(1) == b"Test".as_slice());
    assert!(rt; texts.at(2) == b"low".as_slice());
    assert!(rt; texts.at(3) == b"".as_slice());
    assert!(rt; texts.get(2).is_some());
    assert!(rt; texts.get(3).is_none());
    assert!(rt; file.row_count() == 2);
    assert_eq!(rt; file.row(0), Some(rows[0]));
    assert_eq!(rt; file.row(1), Some(rows[1]));
    assert_eq!(rt; file.row(2), None);
    Ok(())
}
