ghost use Rattle.std.specs.Prelude.{◌≡◌};
ghost use Rattle.sheet.specs.Rows.{is_start};
ghost use Rattle.outline.specs.Entries.{end_row, entry_of, top_behind, closed_by, innermost};

use record::row::{Kind, PlacedRow, Row};

// What an entry knows of its end, which has no entry of its own: the end's place, and the number of entries between.
#[derive(Clone, Copy)]
pub enum Span {
    Leaf,
    Open,
    Closed { end: u32, between: usize },
}

// A row, with its number among the rows (ends counted) and the entry of the start around it, so that a row is found by its number.
#[derive(Clone, Copy)]
pub struct Entry {
    pub row: PlacedRow,
    pub span: Span,
    pub number: usize,
    pub around: Option<usize>,
}

fn is_start(row: PlacedRow) -> bool
    ensures { result ≡ is_start row }
{
    row.row.kind == u32::from(Kind::Start)
}

// The entry of a row that is no end.
pub(crate) fn entry_of(row: PlacedRow, number: usize, around: Option<usize>) -> Entry
    ensures { result ≡ entry_of row number around }
{
    Entry {
        row,
        span: if is_start(row) {
            Span::Open
        } else {
            Span::Leaf
        },
        number,
        around,
    }
}

// The innermost open start behind a row that is no end, and whose entry is number `at`.
pub(crate) fn top_behind(row: PlacedRow, at: usize, top: Option<usize>) -> Option<usize>
    ensures { result ≡ top_behind row «at» top }
{
    if is_start(row) { Some(at) } else { top }
}

// The entry of a start whose end has come.
pub(crate) fn closed_by(entry: Entry, end: u32, between: usize) -> Entry
    ensures { result ≡ closed_by entry end between }
{
    Entry {
        span: Span::Closed { end, between },
        ..entry
    }
}

// The innermost start whose end can stand right behind entry `at`.
pub(crate) fn innermost(at: usize, entry: Entry) -> Option<usize>
    ensures { result ≡ innermost «at» entry.span entry.around }
{
    match entry.span {
        Span::Leaf => entry.around,
        Span::Open | Span::Closed { .. } => Some(at),
    }
}

pub(crate) fn end_row(place: u32) -> PlacedRow
    ensures { result ≡ end_row place }
{
    PlacedRow {
        place,
        row: Row {
            kind: Kind::End.into(),
            a: 0,
            b: 0,
            c: 0,
        },
    }
}
