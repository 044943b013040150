ghost use Rattle.std.specs.Prelude.{◌≡◌, MatchOption};
ghost use Rattle.record.specs.Refusals.{numbered, place_of, cause_of, cause_number};

use thiserror::Error;

// Why a record that was read to its end is not sealed.
#[derive(Clone, Copy, PartialEq, Eq, Debug)]
pub enum Cause {
    // MustUnderstand names a namespace that is not understood.
    MustUnderstand = 1,
    // AlternateContent has a child that is neither a branch nor ignored.
    StrayChild = 2,
    // A kept element or attribute has a namespace that is not understood.
    ForeignName = 3,
}

impl From<Cause> for u32 {
    ghost from_gives = { λ cause number. number ≡ cause_number cause };

    fn from(cause: Cause) -> u32 {
        cause as u32
    }
}

// What a call hands back in place of a result. Each has a number and a place, 0 if none is named;
// docs/REFUSALS.md says when each comes and what it leaves.
#[derive(Clone, Copy, PartialEq, Eq, Debug, Error)]
pub enum Refusal {
    #[error("the file has fewer than 12 bytes")]
    TooShort,
    #[error("the number of texts, rows or text bytes is outside its limits")]
    OutsideLimits,
    #[error("the file's length is not the one that its counts give")]
    WrongLength,
    #[error("pair 0 is not (0, 0), or the text begins before the end of the one before or ends past the text bytes")]
    MisplacedText { pair: u32 },
    #[error("the text has the bytes of an earlier one")]
    RepeatedText { pair: u32 },
    #[error("no row of a card: its kind, a number that names no text, or the name of markup compatibility")]
    BadCardRow { row: u32 },
    #[error("begin or file with a record open, or another call with none")]
    OutOfTurn,
    // At row or finish.
    #[error("the record is spoilt")]
    Spoilt,
    #[error("no row of a record: its kind, or a number that names no text")]
    BadRow { place: u32 },
    #[error("the row may not come here, or the record is not at its end")]
    OutOfOrder { place: u32 },
    #[error("a forbidden declaration, or a prefix or attribute name that the element has already")]
    Forbidden { place: u32 },
    #[error("more than 64 levels, 32 declarations, 32 attributes or 2,048 rows")]
    TooMany { place: u32 },
    #[error("a 129th entry in scope")]
    ScopeFull { place: u32 },
    #[error("a malformed item, or Requires without one")]
    BadItem { place: u32 },
    #[error("a prefix that is not bound")]
    Unbound { place: u32 },
    #[error("Ignorable names markup compatibility, or ProcessContent a namespace that is not ignorable")]
    NotIgnorable { place: u32 },
    // The name of an element or an attribute.
    #[error("a name that markup compatibility does not have")]
    UnknownName { place: u32 },
    // The element is one of markup compatibility.
    #[error("an attribute that the element may not have, or a Choice without Requires")]
    BadAttribute { place: u32 },
    // A branch elsewhere, a second Fallback, a Choice after it, no Choice, or another child that is not ignorable.
    #[error("a branch or a child of AlternateContent out of place, or AlternateContent without a Choice")]
    Misplaced { place: u32 },
    #[error("an unwrapped element has xml:base, xml:lang or xml:space")]
    XmlAttribute { place: u32 },
    #[error("the sheet has no room for the row")]
    NoRoom { place: u32 },
    // The record is at its end, and this is its first mismatch.
    #[error("the record has a mismatch")]
    Mismatch { place: u32, cause: Cause },
    // A start is open at a seal.
    #[error("the sheet cannot hold the row, or a start is open")]
    NotForSheet,
}

impl Refusal {
    pub fn number(self) -> u32
        ensures { result ≡ (numbered self).number }
    {
        match self {
            Refusal::TooShort => 1,
            Refusal::OutsideLimits => 2,
            Refusal::WrongLength => 3,
            Refusal::MisplacedText { .. } => 4,
            Refusal::RepeatedText { .. } => 5,
            Refusal::BadCardRow { .. } => 6,
            Refusal::OutOfTurn => 7,
            Refusal::Spoilt => 8,
            Refusal::BadRow { .. } => 9,
            Refusal::OutOfOrder { .. } => 10,
            Refusal::Forbidden { .. } => 11,
            Refusal::TooMany { .. } => 12,
            Refusal::ScopeFull { .. } => 13,
            Refusal::BadItem { .. } => 14,
            Refusal::Unbound { .. } => 15,
            Refusal::NotIgnorable { .. } => 16,
            Refusal::UnknownName { .. } => 17,
            Refusal::BadAttribute { .. } => 18,
            Refusal::Misplaced { .. } => 19,
            Refusal::XmlAttribute { .. } => 20,
            Refusal::NoRoom { .. } => 21,
            Refusal::Mismatch { .. } => 22,
            Refusal::NotForSheet => 23,
        }
    }

    // The pair, row or place that the refusal names, 0 if none.
    // Kept: the calls give every refusal a place, so callers would only write `unwrap_or(0)`.
    pub fn place(self) -> u32
        ensures { result ≡ place_of self }
    {
        match self {
            Refusal::TooShort
            | Refusal::OutsideLimits
            | Refusal::WrongLength
            | Refusal::OutOfTurn
            | Refusal::Spoilt
            | Refusal::NotForSheet => 0,
            Refusal::MisplacedText { pair } | Refusal::RepeatedText { pair } => pair,
            Refusal::BadCardRow { row } => row,
            Refusal::BadRow { place }
            | Refusal::OutOfOrder { place }
            | Refusal::Forbidden { place }
            | Refusal::TooMany { place }
            | Refusal::ScopeFull { place }
            | Refusal::BadItem { place }
            | Refusal::Unbound { place }
            | Refusal::NotIgnorable { place }
            | Refusal::UnknownName { place }
            | Refusal::BadAttribute { place }
            | Refusal::Misplaced { place }
            | Refusal::XmlAttribute { place }
            | Refusal::NoRoom { place } => place,
            Refusal::Mismatch { place, .. } => place,
        }
    }

    // The cause of a mismatch; no other refusal has one.
    pub fn cause(self) -> Option<Cause>
        ensures { MatchOption result (cause_of self ≡ 0) (λ cause. cause_of self ≡ cause_number cause) }
    {
        match self {
            Refusal::Mismatch { cause, .. } => Some(cause),
            _ => None,
        }
    }
}
