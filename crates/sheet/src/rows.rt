ghost use Rattle.std.specs.Prelude.{◌≡◌, drop, length};
ghost use Rattle.std.specs.Iterator.{YieldsFirst, item_count};

use crate::Readable;
use record::row::PlacedRow;
use std::ops::Range;

// The rows of a readable that are left, by their numbers.
#[derive(Drop)]
pub struct Rows<'r, R: Readable> {
    readable: &'r R,
    numbers: Range<usize>,
    ghost whole: { numbers.end ≡ length (R.Readable.rows readable.now) },
}

impl<'r, R: Readable> Rows<'r, R> {
    ghost use Rattle.sheet.specs.Left.{left};

    pub fn of(readable: &'r R) -> Rows<'r, R>
        ensures { left result ≡ R.Readable.rows readable.now }
    {
        Rows {
            readable,
            numbers: 0..readable.count(),
        }
    }
}

impl<'r, R: Readable> Iterator for Rows<'r, R> {
    ghost use Rattle.sheet.specs.Left.{left};

    type Item = PlacedRow;

    ghost next_gives = { YieldsFirst (left) };

    ghost remaining = { item_count (left) };

    fn next(&mut self) -> Option<PlacedRow> {
        self.readable.row(self.numbers.next()?)
    }
}
