use crate::made::{A, END, START, row, tried};
use record::row::Row;
use std::process::Abort;
use std::test::*;

// A start, then so many rows.
fn behind<F: Fn(u32) -> Row>(rt: &HostRuntime, count: u32, next: F) -> Result<Vec<Row>, Fail>
    requires { F.IsAlwaysCallable next }
{
    let mut rows = Vec::new(rt.alloc());
    rows.push(START)?;
    for k in 0..count {
        rows.push(next(k))?;
    }
    Ok(rows)
}

// One row more.
fn tried_with(
    rt: &(impl Abort + AllocGlobal),
    mut rows: Vec<Row>,
    last: Row,
    expected: (u32, u32),
) -> Result<(), Fail> {
    rows.push(last)?;
    tried(rt, rows.as_slice(), expected)
}

// Each row has a letter of its own. A name that is repeated is refused before it is one too many.
#[test]
fn declarations_and_attributes(rt: HostRuntime) -> Result<(), Fail> {
    let table = [
        (2, 31, (2, 40, A, 0), (0, 33)),
        (2, 32, (2, 40, A, 0), (12, 33)),
        (2, 32, (2, A, A, 0), (11, 33)),
        (2, 32, (2, 33, A, 0), (11, 33)),
        (2, 32, (3, A, A, 0), (0, 34)),
        (3, 31, (3, 40, A, 0), (0, 33)),
        (3, 32, (3, 40, A, 0), (12, 33)),
        (3, 32, (3, A, A, 0), (11, 33)),
        (3, 32, (3, 33, A, 0), (11, 33)),
        (3, 32, (2, 40, A, 0), (10, 33)),
    ];
    for (kind, count, last, expected) in table {
        let rows = behind(&rt, count, |k| row((kind, A.wrapping_add(k), A, 0)))?;
        tried_with(&rt, rows, row(last), expected)?;
    }
    Ok(())
}

#[test]
fn levels_and_rows(rt: HostRuntime) -> Result<(), Fail> {
    let start = (1, 0, A, 0);
    let text = (4, A, 0, 0);
    let end = (5, 0, 0, 0);
    let table = [
        (start, 62, start, (0, 64)),
        (start, 63, start, (12, 64)),
        (start, 63, (2, A, A, 0), (0, 65)),
        (start, 63, end, (0, 65)),
        (text, 2046, end, (0, 2048)),
        (text, 2047, text, (12, 2048)),
        (text, 2047, end, (12, 2048)),
        (text, 2047, (2, A, A, 0), (10, 2048)),
    ];
    for (again, count, last, expected) in table {
        let rows = behind(&rt, count, |_| row(again))?;
        tried_with(&rt, rows, row(last), expected)?;
    }
    Ok(())
}

// A level that was closed can be opened again.
#[test]
fn a_level_closed(rt: HostRuntime) -> Result<(), Fail> {
    let mut rows = behind(&rt, 63, |_| START)?;
    rows.push(END)?;
    rows.push(START)?;
    tried(&rt, rows.as_slice(), (0, 66))?;
    tried_with(&rt, rows, START, (12, 66))
}
