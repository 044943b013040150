ghost use Rattle.std.specs.Prelude.{◌≡◌};
ghost use Rattle.std.specs.Iterator.{IsFinite};
ghost use Rattle.sheet.specs.Meaning.{meaning};
ghost use Rattle.sheet.specs.Each.{PutsEach};
ghost use Rattle.sheet.specs.Sheets.{all_answer, after_all, record_answer, after_record};

use crate::rows::Rows;
use crate::{Readable, Sheet};
use record::refusal::Refusal;
use record::row::PlacedRow;

// Puts the rows that an iterator gives, up to the first refusal.
fn put_each<S: Sheet, I: Iterator<Item = PlacedRow> + Drop>(
    sheet: &mut S,
    rows: I,
) -> Result<(), Refusal>
    requires can { I.can_next rows }
    requires ends { IsFinite (I.remaining rows) }
    ensures { PutsEach I.next_gives rows (meaning S.Readable S.Sheet.own sheet.old) result (meaning S.Readable S.Sheet.own sheet.new) }
{
    for row in rows {
        sheet.put(row)?;
    }
    Ok(())
}

// Puts rows one after another, up to the first refusal.
pub fn put_all<S: Sheet>(sheet: &mut S, rows: &[PlacedRow]) -> Result<(), Refusal>
    ensures answer { result ≡ all_answer (meaning S.Readable S.Sheet.own sheet.old) rows.now }
    ensures meaning { meaning S.Readable S.Sheet.own sheet.new ≡ after_all (meaning S.Readable S.Sheet.own sheet.old) rows.now }
{
    put_each(sheet, rows.iter().copied())
}

// Puts rows one after another and seals them.
#[tactic(auto, unfolding(crate::specs::Sheets::record_answer, crate::specs::Sheets::after_record))]
pub fn put_record<S: Sheet>(sheet: &mut S, rows: &[PlacedRow]) -> Result<usize, Refusal>
    ensures answer { result ≡ record_answer (meaning S.Readable S.Sheet.own sheet.old) rows.now }
    ensures meaning { meaning S.Readable S.Sheet.own sheet.new ≡ after_record (meaning S.Readable S.Sheet.own sheet.old) rows.now }
{
    put_all(sheet, rows)?;
    sheet.seal()
}

// Copies any readable into any sheet, and seals it there.
pub fn copy<R: Readable, S: Sheet>(from: &R, to: &mut S) -> Result<usize, Refusal>
    ensures answer { result ≡ record_answer (meaning S.Readable S.Sheet.own to.old) (R.Readable.rows from.now) }
    ensures meaning { meaning S.Readable S.Sheet.own to.new ≡ after_record (meaning S.Readable S.Sheet.own to.old) (R.Readable.rows from.now) }
{
    put_each(to, Rows::of(from))?;
    to.seal()
}
