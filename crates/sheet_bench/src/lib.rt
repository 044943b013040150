// The sheets as a static library, for bench/: each call puts or reads a record of 2,048 rows so many times.
#![tactic(auto)]

use flat::FlatSheet;
use outline::Outline;
use outline::entry::{Entry, Span};
use record::row::{PlacedRow, Row};
use sheet::rows::Rows;
use sheet::{Readable, Sheet};

const ROWS: u32 = 2048;

const ROW: PlacedRow = PlacedRow {
    place: 0,
    row: Row {
        kind: 0,
        a: 0,
        b: 0,
        c: 0,
    },
};

const ENTRY: Entry = Entry {
    row: ROW,
    span: Span::Leaf,
    number: 0,
    around: None,
};

fn row(place: u32, kind: u32, a: u32, b: u32, c: u32) -> PlacedRow {
    PlacedRow {
        place,
        row: Row { kind, a, b, c },
    }
}

// Elements in groups of eight rows: a start with a declaration, an attribute and a text, an element with a text inside, and the ends.
fn sample(place: u32) -> PlacedRow {
    match place % 8 {
        0 => row(place, 1, 1, 2, 0),
        1 => row(place, 2, 3, 4, 0),
        2 => row(place, 3, 0, 5, place),
        3 => row(place, 4, place, 0, 0),
        4 => row(place, 1, 1, 6, 0),
        5 => row(place, 4, place, 0, 0),
        _ => row(place, 5, 0, 0, 0),
    }
}

fn put_rows<S: Sheet>(sheet: &mut S) -> Option<usize> {
    for place in 0..ROWS {
        sheet.put(sample(place)).ok()?;
    }
    sheet.seal().ok()
}

fn read_rows<R: Readable>(readable: &R) -> u64 {
    Rows::of(readable)
        .map(|placed| u64::from(placed.place ^ placed.row.a))
        .fold(0, u64::wrapping_add)
}

// One round of puts, and a look at one row, so that no put can be left out.
fn put_round<S: Sheet + Drop>(mut sheet: S, round: u32) -> u64 {
    let count = put_rows(&mut sheet).unwrap_or(0) as u64;
    let row = sheet.row((round % ROWS) as usize);
    count.wrapping_add(row.map_or(0, |placed| u64::from(placed.place)))
}

fn read_rounds<S: Sheet + Drop>(mut sheet: S, rounds: u32) -> u64 {
    let count = put_rows(&mut sheet).unwrap_or(0) as u64;
    (0..rounds).fold(count, |sum, _| sum.wrapping_add(read_rows(&sheet)))
}

#[unsafe(no_mangle)]
pub extern "C" fn flat_put(rounds: u32) -> u64 {
    let mut entries = [ROW; 2048];
    (0..rounds)
        .map(|round| put_round(FlatSheet::new(&mut entries), round))
        .fold(0, u64::wrapping_add)
}

#[unsafe(no_mangle)]
pub extern "C" fn outline_put(rounds: u32) -> u64 {
    let mut entries = [ENTRY; 2048];
    (0..rounds)
        .map(|round| put_round(Outline::new(&mut entries), round))
        .fold(0, u64::wrapping_add)
}

#[unsafe(no_mangle)]
pub extern "C" fn flat_read(rounds: u32) -> u64 {
    let mut entries = [ROW; 2048];
    read_rounds(FlatSheet::new(&mut entries), rounds)
}

#[unsafe(no_mangle)]
pub extern "C" fn outline_read(rounds: u32) -> u64 {
    let mut entries = [ENTRY; 2048];
    read_rounds(Outline::new(&mut entries), rounds)
}
