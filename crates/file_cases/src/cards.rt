use crate::made::made;
use card::checked::Card;
use knowledge::{Knowledge, understands};
use record::row::Row;
use std::alloc::AllocError;
use std::process::Abort;
use std::test::Fail;

const MC: &[u8] = b"http://schemas.openxmlformats.org/markup-compatibility/2006";

// A card with the texts `urn:a` (1), markup compatibility (2), `w` (3) and these rows.
fn card(rt: &HostRuntime, rows: &[Row]) -> Result<Vec<u8>, AllocError> {
    made(
        rt.alloc(),
        &[(0, 0), (0, 5), (5, 59), (64, 1)],
        rows,
        b"urn:ahttp://schemas.openxmlformats.org/markup-compatibility/2006w",
    )
}

fn row((kind, a, b, c): (u32, u32, u32, u32)) -> Row {
    Row { kind, a, b, c }
}

// Behind a sound row, so that the place is 1.
#[test]
fn rows_of_a_card(rt: HostRuntime) -> Result<(), Fail> {
    let table = [
        ((21, 1, 0, 0), 0),
        ((21, 0, 0, 0), 6),
        ((21, 2, 0, 0), 6),
        ((21, 4, 0, 0), 6),
        ((21, 1, 1, 0), 6),
        ((21, 1, 0, 1), 6),
        ((22, 3, 0, 0), 0),
        ((22, 2, 0, 0), 0),
        ((22, 0, 0, 0), 6),
        ((22, 4, 0, 0), 6),
        ((22, 1, 1, 0), 6),
        ((22, 1, 0, 1), 6),
        ((23, 1, 3, 0), 0),
        ((23, 0, 3, 0), 0),
        ((23, 1, 2, 0), 0),
        ((23, 1, 0, 0), 6),
        ((23, 2, 3, 0), 6),
        ((23, 4, 3, 0), 6),
        ((23, 1, 4, 0), 6),
        ((23, 1, 3, 1), 6),
        ((20, 1, 0, 0), 6),
        ((24, 1, 0, 0), 6),
        ((1, 1, 3, 0), 6),
    ];
    for (numbers, expected) in table {
        let bytes = card(&rt, &[row((21, 1, 0, 0)), row(numbers)])?;
        let found = match Card::check(bytes.as_slice()) {
            Ok(_) => (0, 0),
            Err(refusal) => (refusal.number(), refusal.place()),
        };
        let place = if expected == 0 { 0 } else { 1 };
        assert_eq!(rt; found, (expected, place));
    }
    Ok(())
}

fn asked<K: Knowledge>(rt: &impl Abort, knowledge: &K, expected: [bool; 5]) {
    let names: [&[u8]; 5] = [b"urn:a", b"urn:ab", b"w", b"wurn", b""];
    for (name, known) in names.into_iter().zip(expected) {
        assert_eq!(rt; knowledge.knows(name), known);
    }
}

// `urn:a` is a name and `w` a stem.
#[test]
fn what_a_card_knows(rt: HostRuntime) -> Result<(), Fail> {
    let bytes = card(
        &rt,
        &[row((21, 1, 0, 0)), row((22, 3, 0, 0)), row((23, 1, 3, 0))],
    )?;
    let card = Card::check(bytes.as_slice()).map_err(|_| Fail::new("refused"))?;
    asked(&rt, &card.names(), [true, false, false, false, false]);
    asked(&rt, &card.family(), [false, false, true, true, false]);
    asked(&rt, &card.knowledge(), [true, false, true, true, false]);
    let list = card.extensions();
    assert!(rt; list.has(b"urn:a", b"w"));
    assert!(rt; !list.has(b"w", b"urn:a"));
    assert!(rt; !list.has(b"urn:a", b""));
    assert!(rt; !list.has(b"", b"w"));
    Ok(())
}

// A stem that markup compatibility begins with says yes to it, and still it is not understood.
#[test]
fn what_is_understood(rt: HostRuntime) -> Result<(), Fail> {
    let bytes = card(&rt, &[row((22, 2, 0, 0))])?;
    let card = Card::check(bytes.as_slice()).map_err(|_| Fail::new("refused"))?;
    let knowledge = card.knowledge();
    assert!(rt; knowledge.knows(MC));
    assert!(rt; !understands(&knowledge, MC));
    assert!(rt; understands(&knowledge, b"http://www.w3.org/XML/1998/namespace"));
    assert!(rt; !knowledge.knows(b"http://www.w3.org/XML/1998/namespace"));
    assert!(rt; !understands(&knowledge, b"urn:a"));
    Ok(())
}
