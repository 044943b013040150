ghost use Rattle.std.specs.Prelude.{◌≡◌, ◌^◌, ◌<◌, ◌≤◌, length, IfOk};
ghost use Rattle.std.specs.List.{slice_get};
ghost use Rattle.file.specs.Form.{within_limits, opened, Distinct};
ghost use Rattle.file.specs.Texts.{texts};
ghost use Rattle.file.specs.Rows.{rows_left};
ghost use Rattle.file.specs.Files.{held, answer};

use crate::number::number_at;
use crate::rows::{Rows, row_at};
use crate::texts::Texts;
use record::refusal::Refusal;
use record::row::Row;

// A file that passed its check: the texts of its pairs, and its rows, which are still to be judged.
#[derive(Clone, Copy)]
pub struct File<'a> {
    texts: Texts<'a>,
    rows: &'a [u8],
}

#[tactic(auto, unfolding(crate::specs::Form::within_limits))]
fn within_limits(texts: usize, rows: usize, bytes: usize) -> bool
    ensures { result ≡ within_limits texts rows bytes }
{
    (1..=1024).contains(&texts) && rows <= 2048 && bytes <= 16384
}

impl<'a> File<'a> {
    // The file that these bytes are, or the first refusal among those of a file's form.
    // Two texts of a checked file are equal exactly if their numbers are.
    pub fn check(bytes: &'a [u8]) -> Result<File<'a>, Refusal>
        ensures answer { answer result ≡ opened bytes.now }
        ensures distinct { IfOk result (λ f. Distinct (held f).texts) }
        ensures few { IfOk result (λ f. length (held f).rows ≤ 2048) }
    {
        if bytes.len() < 12 {
            return Err(Refusal::TooShort);
        }
        let text_count = number_at(bytes, 0) as usize;
        let row_count = number_at(bytes, 4) as usize;
        let byte_count = number_at(bytes, 8) as usize;
        if !within_limits(text_count, row_count, byte_count) {
            return Err(Refusal::OutsideLimits);
        }
        if bytes.len() != 12 + 8 * text_count + 16 * row_count + byte_count {
            return Err(Refusal::WrongLength);
        }
        let (_, body) = bytes.split_at(12);
        let (pairs, rest) = body.split_at(8 * text_count);
        let (rows, text_bytes) = rest.split_at(16 * row_count);
        let texts = Texts::check(pairs, text_bytes)?;
        Ok(File { texts, rows })
    }

    pub fn texts(&self) -> Texts<'a>
        ensures { texts result ≡ (held self.now).texts }
    {
        self.texts
    }

    pub fn row_count(&self) -> usize
        ensures { result ≡ length (held self.now).rows }
    {
        self.rows.len() / 16
    }

    // The rows in order; their number fits a usize, so they can be enumerated.
    pub fn rows(&self) -> Rows<'a>
        ensures rows { rows_left result ≡ (held self.now).rows }
        ensures fits { length (rows_left result) < 2 ^ 64 }
    {
        Rows { left: self.rows }
    }

    // The row at a number, or nothing past the last.
    pub fn row(&self, i: usize) -> Option<Row>
        ensures { result ≡ slice_get (held self.now).rows i }
    {
        (i < self.row_count()).then(|| row_at(self.rows, i))
    }
}
