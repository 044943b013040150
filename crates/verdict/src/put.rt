ghost use Rattle.std.specs.Prelude.{◌≡◌, Bool, List, filter};
ghost use Rattle.text.specs.Bytes.{Bytes};
ghost use Rattle.knowledge.specs.Understood.{Knows};
ghost use Rattle.record.specs.declared.row.PlacedRow.{PlacedRow};
ghost use Rattle.rules.specs.Elements.{tag_rows};
ghost use Rattle.rules.specs.Steps.{kept_tag};
ghost use Rattle.sheet.specs.Meaning.{meaning};
ghost use Rattle.judge.specs.Tags.{tag_of};
ghost use Rattle.verdict.specs.Puts.{Puts};
ghost use Rattle.verdict.specs.Views.{scope_seen, tag_seen, Sees};

use crate::view::View;
use judge::element::Element;
use record::refusal::Refusal;
use record::row::PlacedRow;
use sheet::Sheet;
use sheet::copy::put_all;

// Puts those of some rows that are kept, up to the first refusal.
fn put_those<S: Sheet, F: Fn(PlacedRow) -> bool>(
    sheet: &mut S,
    rows: &[PlacedRow],
    keeps: F,
) -> Result<(), Refusal>
    requires { F.IsAlwaysCallable keeps }
    ensures { (test : PlacedRow → Bool) → ((x : PlacedRow) (b : Bool) → F.post keeps x b → b ≡ test x) → Puts (meaning S.Readable S.Sheet.own sheet.old) (filter test rows.now) result (meaning S.Readable S.Sheet.own sheet.new) }
{
    for x in rows {
        if keeps(*x) {
            sheet.put(*x)?;
        }
    }
    Ok(())
}

// Puts the rows of a kept element's tag that are kept, up to the first refusal.
#[tactic(auto, unfolding(rules::specs::Steps::kept_tag, sheet::specs::Sheets::all_answer, sheet::specs::Sheets::after_all))]
pub fn put_tag<S: Sheet>(
    sheet: &mut S,
    element: Element<'_, '_>,
    view: View<'_>,
) -> Result<(), Refusal>
    ensures { (knows : Knows) → Sees view.entry knows → Puts (meaning S.Readable S.Sheet.own sheet.old) (kept_tag knows (scope_seen view.entry).ignorables (tag_seen view.entry element.entry)) result (meaning S.Readable S.Sheet.own sheet.new) }
{
    sheet.put(element.start)?;
    put_those(sheet, element.decls, |row| view.keeps_decl(row))?;
    put_those(sheet, element.attrs, |row| view.keeps_attr(row))
}

// Puts all rows of an extension element's tag, up to the first refusal.
#[tactic(auto, using(crate::proofs::Puts::puts), unfolding(rules::specs::Elements::tag_rows, sheet::specs::Sheets::all_answer, sheet::specs::Sheets::after_all))]
pub fn put_whole<S: Sheet>(sheet: &mut S, element: Element<'_, '_>) -> Result<(), Refusal>
    ensures { (names : List Bytes) → Puts (meaning S.Readable S.Sheet.own sheet.old) (tag_rows (tag_of names element.entry)) result (meaning S.Readable S.Sheet.own sheet.new) }
{
    sheet.put(element.start)?;
    put_all(sheet, element.decls)?;
    put_all(sheet, element.attrs)
}
