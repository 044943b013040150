ghost use Rattle.std.specs.Prelude.{◌≡◌};
ghost use Rattle.file.specs.Texts.{texts};
ghost use Rattle.card.specs.Cards.{is_name, right_name, right_stem, right_extension, right_row};

use crate::kind::CardKind;
use file::texts::Texts;
use record::row::Row;
use text::names::is_mc;

#[tactic(auto, unfolding(crate::specs::Cards::is_name, crate::specs::Cards::is_text))]
fn is_name(lent: Texts<'_>, n: u32) -> bool
    ensures { result ≡ is_name (texts lent.entry) n }
{
    0 < n && lent.has(n)
}

#[tactic(auto, unfolding(crate::specs::Cards::right_name))]
fn is_right_name(lent: Texts<'_>, row: Row) -> bool
    ensures { result ≡ right_name (texts lent.entry) row }
{
    is_name(lent, row.a) && !is_mc(lent.at(row.a)) && row.b == 0 && row.c == 0
}

#[tactic(auto, unfolding(crate::specs::Cards::right_stem))]
fn is_right_stem(lent: Texts<'_>, row: Row) -> bool
    ensures { result ≡ right_stem (texts lent.entry) row }
{
    is_name(lent, row.a) && row.b == 0 && row.c == 0
}

#[tactic(auto, unfolding(crate::specs::Cards::right_extension, crate::specs::Cards::is_text))]
fn is_right_extension(lent: Texts<'_>, row: Row) -> bool
    ensures { result ≡ right_extension (texts lent.entry) row }
{
    lent.has(row.a) && !is_mc(lent.at(row.a)) && is_name(lent, row.b) && row.c == 0
}

// Whether a row is one of a card's three kinds, with numbers that fit it.
#[tactic(auto, unfolding(crate::specs::Cards::right_row))]
pub(crate) fn is_right(lent: Texts<'_>, row: Row) -> bool
    ensures { result ≡ right_row (texts lent.entry) row }
{
    match CardKind::try_from(row.kind) {
        Ok(CardKind::Name) => is_right_name(lent, row),
        Ok(CardKind::Stem) => is_right_stem(lent, row),
        Ok(CardKind::Extension) => is_right_extension(lent, row),
        Err(_) => false,
    }
}
