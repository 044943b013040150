ghost use Rattle.std.specs.Prelude.{◌≡◌, List, [], length, Some};
ghost use Rattle.record.specs.Rows.{kind_of};
ghost use Rattle.file.specs.Texts.{texts};
ghost use Rattle.knowledge.specs.Understood.{Knows};
ghost use Rattle.sheet.specs.Meaning.{meaning};
ghost use Rattle.rules.specs.Elements.{placed_at};
ghost use Rattle.rules.specs.Order.{row_faults};
ghost use Rattle.calls.specs.Calls.{taken};
ghost use Rattle.frames.specs.Lists.{extension_list};
ghost use Rattle.course.specs.Standing.{Stands, SameRecord};
ghost use Rattle.course.specs.Taking.{Waited, Judged, Took};

use crate::Course;
use crate::ends::is_of_tag;
use crate::rows::judge_row;
use card::extensions::Extensions;
use file::texts::Texts;
use frames::judged::judge;
use frames::opened::Opened;
use frames::put::put_kept;
use record::refusal::Refusal;
use record::row::{Kind, PlacedRow, Row};
use sheet::Sheet;
use verdict::view::View;

impl Course {
    // Judges the element that waits, if one does, and puts its kept rows. What it opens is not held yet: the row behind it may
    // still be refused by the sheet, and then nothing has changed.
    // Kept: texts and extensions as two parameters, here and below. The pair is the reader's `Source`, in the crate above, and a type
    // of its own here would be its twin.
    fn judge_waiting<S: Sheet>(
        &mut self,
        sheet: &mut S,
        lent: Texts<'_>,
        extensions: Extensions<'_>,
    ) -> Result<Option<Opened>, Refusal>
        ensures waited { (knows : Knows) (rows : List Row) → Stands (texts lent.entry) knows (extension_list extensions.entry) rows self.old → Waited (taken (texts lent.entry) knows (extension_list extensions.entry)) rows self.old self.new (meaning S.Readable S.Sheet.own sheet.old) (meaning S.Readable S.Sheet.own sheet.new) result }
        ensures same_record { SameRecord self.old self.new }
        ensures frames { self.new.frames ≡ self.old.frames }
        ensures mismatch { self.new.mismatch ≡ self.old.mismatch }
    {
        let around = self.innermost();
        let Some(element) = self.progress.element() else {
            return Ok(None);
        };
        let opened = judge(
            element,
            lent,
            &self.known,
            extensions,
            around,
            &mut self.scope,
        )?;
        let view = View {
            lent,
            known: &self.known,
            bindings: self.scope.bindings(),
            marks: self.scope.marks(),
            pairs: self.scope.pairs(),
        };
        put_kept(sheet, element, view, opened.frame)?;
        Ok(Some(opened))
    }

    // Judges what a row lets be judged: the element that waits, then the row itself.
    fn settle<S: Sheet>(
        &mut self,
        sheet: &mut S,
        lent: Texts<'_>,
        extensions: Extensions<'_>,
        row: PlacedRow,
        kind: Kind,
    ) -> Result<(), Refusal>
        ensures judged { (knows : Knows) (rows : List Row) → Stands (texts lent.entry) knows (extension_list extensions.entry) rows self.old → kind_of row.row.kind ≡ Some kind → row ≡ placed_at (length rows) row.row → row_faults (texts lent.entry) rows row.row ≡ [] → Judged (taken (texts lent.entry) knows (extension_list extensions.entry)) rows row kind self.old self.new (meaning S.Readable S.Sheet.own sheet.old) (meaning S.Readable S.Sheet.own sheet.new) result }
        ensures same_record { SameRecord self.old self.new }
    {
        if is_of_tag(kind) {
            return Ok(());
        }
        let opened = self.judge_waiting(sheet, lent, extensions)?;
        judge_row(sheet, self.around(opened), row, kind)?;
        self.hold_any(opened);
        self.close_at(kind);
        Ok(())
    }

    // Takes a row that may come next; where the sheet itself refuses it, the course is as before.
    pub fn take<S: Sheet>(
        &mut self,
        sheet: &mut S,
        lent: Texts<'_>,
        extensions: Extensions<'_>,
        row: Row,
        kind: Kind,
    ) -> Result<(), Refusal>
        ensures { (knows : Knows) (rows : List Row) → Stands (texts lent.entry) knows (extension_list extensions.entry) rows self.old → kind_of row.kind ≡ Some kind → row_faults (texts lent.entry) rows row ≡ [] → Took (taken (texts lent.entry) knows (extension_list extensions.entry)) rows row self.new (meaning S.Readable S.Sheet.own sheet.old) (meaning S.Readable S.Sheet.own sheet.new) result }
    {
        let lengths = self.scope.lengths();
        let placed = PlacedRow {
            place: self.progress.place(),
            row,
        };
        let settled = self.settle(sheet, lent, extensions, placed, kind);
        match settled {
            Ok(()) => self.progress.note(row, kind),
            Err(_) => self.scope.cut(lengths),
        }
        settled
    }
}
