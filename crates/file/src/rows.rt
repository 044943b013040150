ghost use Rattle.std.specs.Prelude.{◌≡◌, ◌+◌, ◌*◌, ◌≤◌, length};
ghost use Rattle.std.specs.Iterator.{YieldsFirst, item_count};
ghost use Rattle.file.specs.Form.{row_of};
ghost use Rattle.file.specs.Rows.{rows_left};

use crate::number::number_at;
use record::row::Row;

// The rows of a file that are still to come, of 16 bytes each.
#[derive(Clone, Copy)]
pub struct Rows<'a> {
    pub(crate) left: &'a [u8],
}

impl<'a> Iterator for Rows<'a> {
    type Item = Row;

    ghost next_gives = { YieldsFirst rows_left };

    ghost remaining = { item_count rows_left };

    fn next(&mut self) -> Option<Row> {
        let (row, left) = self.left.split_at_checked(16)?;
        self.left = left;
        Some(row_at(row, 0))
    }
}

#[tactic(auto, unfolding(crate::specs::Form::row_of))]
pub(crate) fn row_at(rows: &[u8], i: usize) -> Row
    requires { 16 * i + 16 ≤ length rows.now }
    ensures { result ≡ row_of rows.now i }
{
    let at = 16 * i;
    Row {
        kind: number_at(rows, at),
        a: number_at(rows, at + 4),
        b: number_at(rows, at + 8),
        c: number_at(rows, at + 12),
    }
}
