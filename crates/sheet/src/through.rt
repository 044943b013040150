ghost use Rattle.std.specs.Prelude.{◌≡◌};

use crate::Readable;
use record::row::PlacedRow;

// Shows what another readable shows: the shape of any layer over a readable.
#[derive(Drop)]
pub struct Through<'v, R> {
    base: &'v R,
}

impl<'v, R: Readable> Through<'v, R> {
    pub fn new(base: &'v R) -> Through<'v, R>
        ensures { result.base.now ≡ base.now }
    {
        Through { base }
    }
}

impl<'v, R: Readable> Readable for Through<'v, R> {
    ghost rows = { λ v. R.Readable.rows v.base.now };

    ghost paired = { λ v. R.Readable.paired v.base.now };

    fn count(&self) -> usize {
        self.base.count()
    }

    fn row(&self, n: usize) -> Option<PlacedRow> {
        self.base.row(n)
    }
}
