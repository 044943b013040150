ghost use Rattle.std.specs.Prelude.{◌≡◌};
ghost use Rattle.file.specs.Texts.{texts};
ghost use Rattle.sheet.specs.Meaning.{meaning};
ghost use Rattle.calls.specs.Calls.{Reading, idle, taken, begin_on, row_on, finish_on, abandon_on, done, added, is_of_sheet};
ghost use Rattle.frames.specs.Lists.{extension_list};
ghost use Rattle.reader.specs.Holding.{Holds, Does};

use super::{Reader, Source, Turn};
use card::extensions::Extensions;
use course::Course;
use file::texts::Texts;
use knowledge::Knowledge;
use record::refusal::Refusal;
use record::row::Row;
use sheet::Sheet;

// The refusal of a sheet that others wrote to, which changes nothing.
fn is_of_sheet(refusal: Refusal) -> bool
    ensures { result ≡ is_of_sheet refusal }
{
    matches!(refusal, Refusal::NotForSheet)
}

impl<'a> Reader<'a> {
    // No record is open.
    pub fn new() -> Reader<'a>
        ensures { Holds result idle }
    {
        Reader {
            turn: Turn::Closed,
            course: Course::new(),
        }
    }

    // Opens a record. Each text is put to the knowledge once; the sheet is not touched.
    pub fn begin<S: Sheet, K: Knowledge>(
        &mut self,
        sheet: &mut S,
        lent: Texts<'a>,
        knowledge: &K,
        extensions: Extensions<'a>,
    ) -> Result<(), Refusal>
        ensures { (reading : Reading) → Holds self.old reading → Does (begin_on reading (taken (texts lent.entry) (K.Knowledge.meaning knowledge.now) (extension_list extensions.entry)) (meaning S.Readable S.Sheet.own sheet.old)) self.new (meaning S.Readable S.Sheet.own sheet.new) (done result) }
    {
        let _ = sheet;
        match self.turn {
            Turn::Closed => {
                let source = Source {
                    texts: lent,
                    extensions,
                };
                self.course.begin(knowledge, lent);
                self.turn = Turn::Open(source);
                Ok(())
            }
            Turn::Open(_) | Turn::Spoilt => Err(Refusal::OutOfTurn),
        }
    }

    // Adds a row to the record and judges what can now be judged.
    pub fn row<S: Sheet>(&mut self, sheet: &mut S, row: Row) -> Result<(), Refusal>
        ensures { (reading : Reading) → Holds self.old reading → Does (row_on reading row (meaning S.Readable S.Sheet.own sheet.old)) self.new (meaning S.Readable S.Sheet.own sheet.new) (done result) }
    {
        let source = match self.turn {
            Turn::Closed => return Err(Refusal::OutOfTurn),
            Turn::Spoilt => return Err(Refusal::Spoilt),
            Turn::Open(source) => source,
        };
        let kind = self.course.check(source.texts, row)?;
        let answer = self
            .course
            .take(sheet, source.texts, source.extensions, row, kind);
        if answer.is_err_and(|refusal| !is_of_sheet(refusal)) {
            sheet.drop_draft();
            self.turn = Turn::Spoilt;
        }
        answer
    }

    // After the root's end: seals the draft, closes the record and answers how many rows were sealed. After a mismatch the
    // draft is dropped instead.
    pub fn finish<S: Sheet>(&mut self, sheet: &mut S) -> Result<usize, Refusal>
        ensures { (reading : Reading) → Holds self.old reading → Does (finish_on reading (meaning S.Readable S.Sheet.own sheet.old)) self.new (meaning S.Readable S.Sheet.own sheet.new) (added result) }
    {
        match self.turn {
            Turn::Closed => return Err(Refusal::OutOfTurn),
            Turn::Spoilt => return Err(Refusal::Spoilt),
            Turn::Open(_) => {}
        }
        self.course.check_end()?;
        if let Some(mismatch) = self.course.mismatch() {
            sheet.drop_draft();
            self.turn = Turn::Closed;
            return Err(mismatch);
        }
        let sealed = sheet.seal()?;
        self.turn = Turn::Closed;
        Ok(sealed)
    }

    // Drops the draft and closes the record.
    pub fn abandon<S: Sheet>(&mut self, sheet: &mut S) -> Result<(), Refusal>
        ensures { (reading : Reading) → Holds self.old reading → Does (abandon_on reading (meaning S.Readable S.Sheet.own sheet.old)) self.new (meaning S.Readable S.Sheet.own sheet.new) (done result) }
    {
        match self.turn {
            Turn::Closed => Err(Refusal::OutOfTurn),
            Turn::Open(_) | Turn::Spoilt => {
                sheet.drop_draft();
                self.turn = Turn::Closed;
                Ok(())
            }
        }
    }
}
