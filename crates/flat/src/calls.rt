ghost use Rattle.std.specs.Prelude.{◌≡◌, [], length};
ghost use Rattle.std.specs.List.{slice_get};
ghost use Rattle.sheet.specs.Sheets.{model};

use super::FlatSheet;
use record::refusal::Refusal;
use record::row::PlacedRow;
use roll::Roll;
use sheet::tail::Tail;
use sheet::{Readable, Sheet};

impl<'a> FlatSheet<'a> {
    ghost use Rattle.flat.specs.Flats.{flat_sealed, flat_draft, flat_capacity, flat_cost};

    // A sheet with no rows, whose capacity is the entries lent.
    #[tactic(auto, unfolding(sheet::specs::Rows::open_in, sheet::specs::Rows::pairs))]
    pub fn new(entries: &'a mut [PlacedRow]) -> FlatSheet<'a>
        ensures { model (flat_sealed result) (flat_draft result) (flat_capacity result) flat_cost ≡ model [] [] (length entries.old) flat_cost }
    {
        FlatSheet {
            roll: Roll::new(entries),
            sealed: 0,
            tail: Tail::new(),
        }
    }

    // The row of the draft at a number, or nothing past the last: a look at what is judged and not yet sealed.
    pub fn draft_row(&self, n: usize) -> Option<PlacedRow>
        ensures { result ≡ slice_get (flat_draft self.now) n }
    {
        self.roll.as_slice()[self.sealed..].get(n).copied()
    }
}

impl<'a> Readable for FlatSheet<'a> {
    ghost use Rattle.flat.specs.Flats.{flat_sealed};

    ghost rows = { flat_sealed };

    ghost paired = { λ s. s.drafted.3 };

    fn count(&self) -> usize {
        self.sealed
    }

    fn row(&self, n: usize) -> Option<PlacedRow> {
        self.roll.as_slice()[..self.sealed].get(n).copied()
    }
}

impl<'a> Sheet for FlatSheet<'a> {
    ghost use Rattle.flat.specs.Flats.{flat_draft, flat_capacity, flat_cost};

    ghost draft = { flat_draft };

    ghost capacity = { flat_capacity };

    ghost cost = { flat_cost };

    fn put(&mut self, row: PlacedRow) -> Result<(), Refusal> {
        self.tail.judge(row, self.roll.has_room())?;
        self.tail = self.tail.behind(row);
        let _ = self.roll.push(row);
        Ok(())
    }

    fn seal(&mut self) -> Result<usize, Refusal> {
        if !self.tail.is_closed() {
            return Err(Refusal::NotForSheet);
        }
        let count = self.roll.len() - self.sealed;
        self.sealed = self.roll.len();
        self.tail = Tail::new();
        Ok(count)
    }

    fn drop_draft(&mut self) {
        self.roll.truncate(self.sealed);
        self.tail = Tail::new();
    }
}
