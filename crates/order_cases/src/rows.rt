use crate::made::{A, END, NONE, START, XML, row, tried};
use std::test::*;

#[test]
fn a_first_row_by_its_form(rt: HostRuntime) -> Result<(), Fail> {
    let table = [
        ((0, 0, A, 0), (9, 0)),
        ((6, 0, A, 0), (9, 0)),
        ((1, 0, A, 0), (0, 1)),
        ((1, 41, 41, 0), (0, 1)),
        ((1, NONE, A, 0), (9, 0)),
        ((1, 0, NONE, 0), (9, 0)),
        ((1, 4294967295, A, 0), (9, 0)),
        ((1, A, 0, 0), (9, 0)),
        ((1, 0, A, A), (9, 0)),
        ((2, A, A, 0), (10, 0)),
        ((3, 0, A, 0), (10, 0)),
        ((4, A, 0, 0), (10, 0)),
        ((5, 0, 0, 0), (10, 0)),
    ];
    for (first, expected) in table {
        tried(&rt, &[row(first)], expected)?;
    }
    Ok(())
}

#[test]
fn a_row_behind_a_start(rt: HostRuntime) -> Result<(), Fail> {
    let table = [
        ((2, A, A, 0), (0, 2)),
        ((2, NONE, A, 0), (9, 1)),
        ((2, A, NONE, 0), (9, 1)),
        ((2, A, A, A), (9, 1)),
        ((2, XML, A, 0), (11, 1)),
        ((2, A, 0, 0), (11, 1)),
        ((2, 0, 0, 0), (0, 2)),
        ((3, 0, A, 0), (0, 2)),
        ((3, A, 0, 0), (9, 1)),
        ((3, A, A, NONE), (9, 1)),
        ((4, A, 0, 0), (0, 2)),
        ((4, NONE, 0, 0), (9, 1)),
        ((4, A, A, 0), (9, 1)),
        ((4, A, 0, A), (9, 1)),
        ((5, 0, 0, 0), (0, 2)),
        ((5, A, 0, 0), (9, 1)),
        ((5, 0, A, 0), (9, 1)),
        ((5, 0, 0, A), (9, 1)),
    ];
    for (second, expected) in table {
        tried(&rt, &[START, row(second)], expected)?;
    }
    Ok(())
}

#[test]
fn two_rows_behind_a_start(rt: HostRuntime) -> Result<(), Fail> {
    let prefix = (2, A, A, 0);
    let attr = (3, A, A, A);
    let table = [
        (prefix, (2, A, 3, 0), (11, 2)),
        (prefix, (2, 3, A, 0), (0, 3)),
        ((2, 0, A, 0), (2, 0, 0, 0), (11, 2)),
        (prefix, attr, (0, 3)),
        (attr, prefix, (10, 2)),
        (attr, (3, A, A, 0), (11, 2)),
        (attr, (3, A, 3, A), (0, 3)),
        (attr, (3, 3, A, A), (0, 3)),
        ((4, A, 0, 0), prefix, (10, 2)),
        ((4, A, 0, 0), attr, (10, 2)),
        (prefix, (1, 0, A, 0), (0, 3)),
        ((5, 0, 0, 0), (1, 0, A, 0), (10, 2)),
        ((5, 0, 0, 0), prefix, (10, 2)),
        ((5, 0, 0, 0), attr, (10, 2)),
        ((5, 0, 0, 0), (4, A, 0, 0), (10, 2)),
        ((5, 0, 0, 0), (5, 0, 0, 0), (10, 2)),
    ];
    for (second, third, expected) in table {
        tried(&rt, &[START, row(second), row(third)], expected)?;
    }
    Ok(())
}

// An element begins with none of what the one around it has.
#[test]
fn an_element_inside(rt: HostRuntime) -> Result<(), Fail> {
    let prefix = row((2, A, A, 0));
    let attr = row((3, A, A, A));
    tried(
        &rt,
        &[START, prefix, attr, START, prefix, attr, END, END],
        (0, 8),
    )?;
    tried(&rt, &[START, START, END, attr], (10, 3))?;
    tried(&rt, &[START, START, END, START, prefix], (0, 5))
}
