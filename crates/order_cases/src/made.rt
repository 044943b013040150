use file::checked::File;
use file::texts::Texts;
use order::progress::Progress;
use record::refusal::Refusal;
use record::row::Row;
use std::alloc::{AllocError, Global};
use std::process::Abort;
use std::test::*;

// Text 1 is `xml`, the 40 behind it a letter each; 42 is the first number that names no text.
const TEXT: &[u8] = b"xmlABCDEFGHIJKLMNOPQRSTUVWXYZabcdefghijklmn";

pub(crate) const XML: u32 = 1;

// The first letter.
pub(crate) const A: u32 = 2;

pub(crate) const NONE: u32 = 42;

pub(crate) const START: Row = Row {
    kind: 1,
    a: 0,
    b: A,
    c: 0,
};

pub(crate) const END: Row = Row {
    kind: 5,
    a: 0,
    b: 0,
    c: 0,
};

pub(crate) fn row((kind, a, b, c): (u32, u32, u32, u32)) -> Row {
    Row { kind, a, b, c }
}

fn number(bytes: &mut Vec<u8>, n: u32) -> Result<(), AllocError> {
    bytes.extend_from_slice(&n.to_le_bytes())
}

// A file of the texts, with no rows.
fn file(heap: Global) -> Result<Vec<u8>, AllocError> {
    let mut bytes = Vec::new(heap);
    for n in [42, 0, 43, 0, 0, 0, 3] {
        number(&mut bytes, n)?;
    }
    for k in 3..43 {
        number(&mut bytes, k)?;
        number(&mut bytes, 1)?;
    }
    bytes.extend_from_slice(TEXT)?;
    Ok(bytes)
}

// The number of rows, or the first refusal.
fn answer(lent: Texts<'_>, rows: &[Row]) -> Result<u32, Refusal> {
    let mut progress = Progress::new();
    for row in rows {
        let kind = progress.check(lent, *row)?;
        progress.note(*row, kind);
    }
    Ok(progress.place())
}

// What is expected is the number and the place of the first refusal, or 0 and the number of rows.
pub(crate) fn tried(
    rt: &(impl Abort + AllocGlobal),
    rows: &[Row],
    expected: (u32, u32),
) -> Result<(), Fail> {
    let bytes = file(rt.alloc())?;
    let file = File::check(bytes.as_slice()).map_err(|_| Fail::new("the texts are refused"))?;
    let told = match answer(file.texts(), rows) {
        Ok(count) => (0, count),
        Err(refusal) => (refusal.number(), refusal.place()),
    };
    assert_eq!(rt; told, expected);
    Ok(())
}
