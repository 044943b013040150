ghost use Rattle.std.specs.Prelude.{◌≡◌};
ghost use Rattle.record.specs.Rows.{NamesKind, kind_number};

use thiserror::Error;

// A row as it comes in: a kind and three numbers, none of them checked.
#[derive(Clone, Copy, PartialEq, Eq, Debug)]
pub struct Row {
    pub kind: u32,
    pub a: u32,
    pub b: u32,
    pub c: u32,
}

// A row with its place: the number of rows that its record had accepted before it.
#[derive(Clone, Copy, PartialEq, Eq, Debug)]
pub struct PlacedRow {
    pub place: u32,
    pub row: Row,
}

// The kinds of rows of a record, each with the number that a row names it by.
#[derive(Clone, Copy, PartialEq, Eq, Debug)]
pub enum Kind {
    // namespace, local name, 0
    Start = 1,
    // prefix, namespace, 0
    Declaration = 2,
    // namespace, local name, value
    Attribute = 3,
    // text, 0, 0
    Text = 4,
    // 0, 0, 0
    End = 5,
}

// A number that no kind has.
#[derive(Clone, Copy, PartialEq, Eq, Debug, Error)]
#[error("no kind of row has the number {0}")]
pub struct UnknownKind(pub u32);

impl TryFrom<u32> for Kind {
    type Error = UnknownKind;

    ghost try_from_gives = { NamesKind };

    fn try_from(number: u32) -> Result<Kind, UnknownKind> {
        match number {
            1 => Ok(Kind::Start),
            2 => Ok(Kind::Declaration),
            3 => Ok(Kind::Attribute),
            4 => Ok(Kind::Text),
            5 => Ok(Kind::End),
            _ => Err(UnknownKind(number)),
        }
    }
}

impl From<Kind> for u32 {
    ghost from_gives = { λ kind number. number ≡ kind_number kind };

    fn from(kind: Kind) -> u32 {
        kind as u32
    }
}
