use crate::cases::Step::{Drop as DropDraft, Put, Seal};
use crate::cases::{
    Answer, Step, first_difference, first_surprise, is_nest, is_same_through, nest,
};
use flat::FlatSheet;
use outline::Outline;
use outline::entry::{Entry, Span};
use record::row::{PlacedRow, Row};
use sheet::copy::copy;

const ROW: PlacedRow = PlacedRow {
    place: 9,
    row: Row {
        kind: 9,
        a: 9,
        b: 9,
        c: 9,
    },
};

const ENTRY: Entry = Entry {
    row: ROW,
    span: Span::Open,
    number: 9,
    around: None,
};

// Every reason for 23, with room for all; then records one after another, the draft alone counting for order and for starts.
const REASONS: [(Step, Answer); 31] = [
    (Put(0, 0, 1, 1, 0), Err((23, 0))),
    (Put(0, 6, 0, 0, 0), Err((23, 0))),
    (Put(7, 1, 1, 2, 1), Err((23, 0))),
    (Put(7, 2, 1, 2, 1), Err((23, 0))),
    (Put(7, 4, 1, 1, 0), Err((23, 0))),
    (Put(7, 4, 1, 0, 1), Err((23, 0))),
    (Put(0, 5, 0, 0, 0), Err((23, 0))),
    (Seal, Ok(Some(0))),
    (Put(3, 1, 1, 2, 0), Ok(None)),
    (Seal, Err((23, 0))),
    (Put(4, 5, 1, 0, 0), Err((23, 0))),
    (Put(4, 5, 0, 1, 0), Err((23, 0))),
    (Put(4, 5, 0, 0, 1), Err((23, 0))),
    (Put(3, 4, 1, 0, 0), Err((23, 0))),
    (Put(2, 4, 1, 0, 0), Err((23, 0))),
    (Put(4, 4, 1, 0, 0), Ok(None)),
    (Put(5, 2, 0, 2, 0), Ok(None)),
    (Put(6, 3, 0, 7, 8), Ok(None)),
    (Put(9, 5, 0, 0, 0), Ok(None)),
    (Put(10, 5, 0, 0, 0), Err((23, 0))),
    (Seal, Ok(Some(5))),
    (Put(0, 4, 2, 0, 0), Ok(None)),
    (Put(1, 5, 0, 0, 0), Err((23, 0))),
    (Seal, Ok(Some(1))),
    (Put(0, 1, 1, 2, 0), Ok(None)),
    (Put(1, 1, 1, 2, 0), Ok(None)),
    (DropDraft, Ok(None)),
    (Put(2, 5, 0, 0, 0), Err((23, 0))),
    (Put(0, 4, 3, 0, 0), Ok(None)),
    (DropDraft, Ok(None)),
    (Seal, Ok(Some(0))),
];

const REASONS_ROWS: [(u32, u32, u32, u32, u32); 6] = [
    (3, 1, 1, 2, 0),
    (4, 4, 1, 0, 0),
    (5, 2, 0, 2, 0),
    (6, 3, 0, 7, 8),
    (9, 5, 0, 0, 0),
    (0, 4, 2, 0, 0),
];

// Four entries, where every row takes one.
const FLAT_FULL: [(Step, Answer); 19] = [
    (Put(0, 1, 1, 2, 0), Ok(None)),
    (Put(1, 1, 1, 2, 0), Ok(None)),
    (Put(2, 4, 1, 0, 0), Ok(None)),
    (Put(3, 5, 0, 0, 0), Ok(None)),
    (Put(4, 5, 0, 0, 0), Err((21, 4))),
    (Put(5, 4, 1, 0, 0), Err((21, 5))),
    (Put(6, 7, 0, 0, 0), Err((23, 0))),
    (Put(3, 4, 1, 0, 0), Err((23, 0))),
    (Seal, Err((23, 0))),
    (DropDraft, Ok(None)),
    (Put(0, 1, 1, 2, 0), Ok(None)),
    (Put(1, 5, 0, 0, 0), Ok(None)),
    (Seal, Ok(Some(2))),
    (Put(0, 1, 1, 3, 0), Ok(None)),
    (Put(1, 4, 1, 0, 0), Ok(None)),
    (Put(2, 5, 0, 0, 0), Err((21, 2))),
    (DropDraft, Ok(None)),
    (Put(7, 4, 5, 0, 0), Ok(None)),
    (Seal, Ok(Some(1))),
];

const FLAT_FULL_ROWS: [(u32, u32, u32, u32, u32); 3] = [
    (0, 1, 1, 2, 0),
    (1, 5, 0, 0, 0),
    (7, 4, 5, 0, 0),
];

// Four entries, where ends take none.
const OUTLINE_FULL: [(Step, Answer); 17] = [
    (Put(0, 1, 1, 2, 0), Ok(None)),
    (Put(1, 1, 1, 2, 0), Ok(None)),
    (Put(2, 4, 1, 0, 0), Ok(None)),
    (Put(3, 5, 0, 0, 0), Ok(None)),
    (Put(5, 4, 1, 0, 0), Ok(None)),
    (Put(6, 4, 1, 0, 0), Err((21, 6))),
    (Put(6, 1, 1, 2, 0), Err((21, 6))),
    (Put(6, 7, 0, 0, 0), Err((23, 0))),
    (Put(8, 5, 0, 0, 0), Ok(None)),
    (Put(9, 5, 0, 0, 0), Err((23, 0))),
    (Seal, Ok(Some(6))),
    (Put(0, 4, 1, 0, 0), Err((21, 0))),
    (Put(0, 5, 0, 0, 0), Err((23, 0))),
    (DropDraft, Ok(None)),
    (Seal, Ok(Some(0))),
    (Put(4, 2, 1, 2, 0), Err((21, 4))),
    (Put(4, 3, 1, 2, 3), Err((21, 4))),
];

const OUTLINE_FULL_ROWS: [(u32, u32, u32, u32, u32); 6] = [
    (0, 1, 1, 2, 0),
    (1, 1, 1, 2, 0),
    (2, 4, 1, 0, 0),
    (3, 5, 0, 0, 0),
    (5, 4, 1, 0, 0),
    (8, 5, 0, 0, 0),
];

// No entry at all.
const NO_ROOM: [(Step, Answer); 4] = [
    (Put(0, 4, 1, 0, 0), Err((21, 0))),
    (Put(3, 1, 1, 2, 0), Err((21, 3))),
    (Put(0, 5, 0, 0, 0), Err((23, 0))),
    (Seal, Ok(Some(0))),
];

// Two records: siblings, ends that stand together, text between and behind.
const RECORDS: [(Step, Answer); 20] = [
    (Put(0, 1, 1, 2, 0), Ok(None)),
    (Put(1, 3, 0, 4, 5), Ok(None)),
    (Put(2, 1, 1, 3, 0), Ok(None)),
    (Put(3, 1, 1, 4, 0), Ok(None)),
    (Put(4, 5, 0, 0, 0), Ok(None)),
    (Put(5, 5, 0, 0, 0), Ok(None)),
    (Put(6, 4, 6, 0, 0), Ok(None)),
    (Put(7, 1, 1, 5, 0), Ok(None)),
    (Put(8, 4, 7, 0, 0), Ok(None)),
    (Put(9, 5, 0, 0, 0), Ok(None)),
    (Put(12, 5, 0, 0, 0), Ok(None)),
    (Seal, Ok(Some(11))),
    (Put(0, 1, 1, 6, 0), Ok(None)),
    (Put(1, 2, 1, 2, 0), Ok(None)),
    (DropDraft, Ok(None)),
    (Put(1, 1, 1, 7, 0), Ok(None)),
    (Put(2, 2, 3, 4, 0), Ok(None)),
    (Put(3, 5, 0, 0, 0), Ok(None)),
    (Put(4, 4, 8, 0, 0), Ok(None)),
    (Seal, Ok(Some(4))),
];

const RECORDS_ROWS: [(u32, u32, u32, u32, u32); 15] = [
    (0, 1, 1, 2, 0),
    (1, 3, 0, 4, 5),
    (2, 1, 1, 3, 0),
    (3, 1, 1, 4, 0),
    (4, 5, 0, 0, 0),
    (5, 5, 0, 0, 0),
    (6, 4, 6, 0, 0),
    (7, 1, 1, 5, 0),
    (8, 4, 7, 0, 0),
    (9, 5, 0, 0, 0),
    (12, 5, 0, 0, 0),
    (1, 1, 1, 7, 0),
    (2, 2, 3, 4, 0),
    (3, 5, 0, 0, 0),
    (4, 4, 8, 0, 0),
];

#[test]
fn flat_answers(rt: HostRuntime) {
    let mut entries = [ROW; 16];
    let mut sheet = FlatSheet::new(&mut entries);
    assert_eq!(rt; first_surprise(&mut sheet, &REASONS), None);
    assert_eq!(rt; first_difference(&sheet, &REASONS_ROWS), None);
    assert!(rt; is_same_through(&sheet));
}

#[test]
fn outline_answers(rt: HostRuntime) {
    let mut entries = [ENTRY; 16];
    let mut sheet = Outline::new(&mut entries);
    assert_eq!(rt; first_surprise(&mut sheet, &REASONS), None);
    assert_eq!(rt; first_difference(&sheet, &REASONS_ROWS), None);
    assert!(rt; is_same_through(&sheet));
}

#[test]
fn flat_at_capacity(rt: HostRuntime) {
    let mut entries = [ROW; 4];
    let mut sheet = FlatSheet::new(&mut entries);
    assert_eq!(rt; first_surprise(&mut sheet, &FLAT_FULL), None);
    assert_eq!(rt; first_difference(&sheet, &FLAT_FULL_ROWS), None);
}

#[test]
fn outline_at_capacity(rt: HostRuntime) {
    let mut entries = [ENTRY; 4];
    let mut sheet = Outline::new(&mut entries);
    assert_eq!(rt; first_surprise(&mut sheet, &OUTLINE_FULL), None);
    assert_eq!(rt; first_difference(&sheet, &OUTLINE_FULL_ROWS), None);
}

#[test]
fn without_entries(rt: HostRuntime) {
    let mut rows = [ROW; 0];
    let mut flat = FlatSheet::new(&mut rows);
    assert_eq!(rt; first_surprise(&mut flat, &NO_ROOM), None);
    assert_eq!(rt; first_difference(&flat, &[]), None);
    let mut entries = [ENTRY; 0];
    let mut outline = Outline::new(&mut entries);
    assert_eq!(rt; first_surprise(&mut outline, &NO_ROOM), None);
    assert_eq!(rt; first_difference(&outline, &[]), None);
}

#[test]
fn records_in_turn(rt: HostRuntime) {
    let mut rows = [ROW; 15];
    let mut flat = FlatSheet::new(&mut rows);
    assert_eq!(rt; first_surprise(&mut flat, &RECORDS), None);
    assert_eq!(rt; first_difference(&flat, &RECORDS_ROWS), None);
    let mut entries = [ENTRY; 10];
    let mut outline = Outline::new(&mut entries);
    assert_eq!(rt; first_surprise(&mut outline, &RECORDS), None);
    assert_eq!(rt; first_difference(&outline, &RECORDS_ROWS), None);
    assert!(rt; is_same_through(&outline));
}

#[test]
fn deep_nests(rt: HostRuntime) {
    let mut rows = [ROW; 128];
    let mut flat = FlatSheet::new(&mut rows);
    assert_eq!(rt; nest(&mut flat, 64), Ok(Some(128)));
    assert!(rt; is_nest(&flat, 64));
    let mut entries = [ENTRY; 64];
    let mut outline = Outline::new(&mut entries);
    assert_eq!(rt; nest(&mut outline, 64), Ok(Some(128)));
    assert!(rt; is_nest(&outline, 64));
    assert_eq!(rt; nest(&mut outline, 1), Err((21, 0)));
}

// A copy of one sheet in the other, and back.
#[test]
fn copies(rt: HostRuntime) {
    let mut rows = [ROW; 8];
    let mut flat = FlatSheet::new(&mut rows);
    assert_eq!(rt; nest(&mut flat, 3), Ok(Some(6)));
    let mut entries = [ENTRY; 3];
    let mut outline = Outline::new(&mut entries);
    assert_eq!(rt; copy(&flat, &mut outline).ok(), Some(6));
    assert!(rt; is_nest(&outline, 3));
    let mut others = [ROW; 6];
    let mut back = FlatSheet::new(&mut others);
    assert_eq!(rt; copy(&outline, &mut back).ok(), Some(6));
    assert!(rt; is_nest(&back, 3));
}
