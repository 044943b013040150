ghost use Rattle.file.specs.Files.{held};
ghost use Rattle.card.specs.Cards.{name_list_says, family_says};

use crate::kind::CardKind;
use file::checked::File;
use knowledge::Knowledge;
use text::bytes::{same, starts_with};

// The names of a card: says yes for the texts of its rows 21 only.
#[derive(Clone, Copy)]
pub struct NameList<'a> {
    pub(crate) card: File<'a>,
}

// The stems of a card: says yes for strings that begin with a text of its rows 22 only.
#[derive(Clone, Copy)]
pub struct Family<'a> {
    pub(crate) card: File<'a>,
}

impl<'a> Knowledge for NameList<'a> {
    ghost meaning = { λ l name. name_list_says (held l.card) name };

    fn knows(&self, name: &[u8]) -> bool {
        let texts = self.card.texts();
        self.card.rows().any(|row| row.kind == u32::from(CardKind::Name)
            && same(texts.at(row.a), name))
    }
}

impl<'a> Knowledge for Family<'a> {
    ghost meaning = { λ f name. family_says (held f.card) name };

    fn knows(&self, name: &[u8]) -> bool {
        let texts = self.card.texts();
        self.card.rows().any(|row| row.kind == u32::from(CardKind::Stem)
            && starts_with(name, texts.at(row.a)))
    }
}
