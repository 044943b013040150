ghost use Rattle.std.specs.Prelude.{◌≡◌};
ghost use Rattle.card.specs.Kinds.{NamesKind, kind_number};

use record::row::UnknownKind;

// The kinds of rows of a card, each with the number that a row names it by.
#[derive(Clone, Copy, PartialEq, Eq, Debug)]
pub enum CardKind {
    // name, 0, 0
    Name = 21,
    // stem, 0, 0
    Stem = 22,
    // namespace, local name, 0
    Extension = 23,
}

impl TryFrom<u32> for CardKind {
    type Error = UnknownKind;

    ghost try_from_gives = { NamesKind };

    fn try_from(number: u32) -> Result<CardKind, UnknownKind> {
        match number {
            21 => Ok(CardKind::Name),
            22 => Ok(CardKind::Stem),
            23 => Ok(CardKind::Extension),
            _ => Err(UnknownKind(number)),
        }
    }
}

impl From<CardKind> for u32 {
    ghost from_gives = { λ kind number. number ≡ kind_number kind };

    fn from(kind: CardKind) -> u32 {
        kind as u32
    }
}
