ghost use Rattle.std.specs.Prelude.{◌≡◌};
ghost use Rattle.file.specs.Files.{held};
ghost use Rattle.card.specs.Cards.{IsRight, opened_card};

use crate::extensions::Extensions;
use crate::known::{Family, NameList};
use crate::right::is_right;
use file::checked::File;
use knowledge::Either;
use record::refusal::Refusal;

// A card that passed its check.
#[derive(Clone, Copy)]
pub struct Card<'a> {
    file: File<'a>,
    ghost right: { IsRight (held file) },
}

impl<'a> Card<'a> {
    ghost use Rattle.card.specs.Answers.{holds, card_answer};

    // The card that these bytes are, or the first refusal of a file's form, or the first row that no card may have.
    pub fn check(bytes: &'a [u8]) -> Result<Card<'a>, Refusal>
        ensures { card_answer result ≡ opened_card bytes.now }
    {
        let file = File::check(bytes)?;
        let texts = file.texts();
        if let Some(row) = file.rows().position(|row| !is_right(texts, row)) {
            return Err(Refusal::BadCardRow { row: row as u32 });
        }
        Ok(Card { file })
    }

    pub fn names(&self) -> NameList<'a>
        ensures { held result.card ≡ holds self.now }
    {
        NameList { card: self.file }
    }

    pub fn family(&self) -> Family<'a>
        ensures { held result.card ≡ holds self.now }
    {
        Family { card: self.file }
    }

    // What the card knows: its names, or its family.
    pub fn knowledge(&self) -> Either<NameList<'a>, Family<'a>>
        ensures first { held result.first.card ≡ holds self.now }
        ensures second { held result.second.card ≡ holds self.now }
    {
        Either {
            first: self.names(),
            second: self.family(),
        }
    }

    pub fn extensions(&self) -> Extensions<'a>
        ensures { held result.card ≡ holds self.now }
    {
        Extensions { card: self.file }
    }
}
