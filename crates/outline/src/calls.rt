ghost use Rattle.std.specs.Prelude.{◌≡◌, ◌+◌, ◌<◌, true, false, [], ◌∷◌, ◌++◌, length, Ok, nat_le};
ghost use Rattle.roll.specs.Rolls.{items, slot_count};
ghost use Rattle.sheet.specs.Rows.{is_end, cost_of, spent};
ghost use Rattle.sheet.specs.Sheets.{model};
ghost use Rattle.sheet.specs.Tails.{judged};
ghost use Rattle.outline.specs.Entries.{outline_cost, rows_of};
ghost use Rattle.outline.specs.Outlines.{outline_sealed, outline_draft, outline_capacity};

use super::Outline;
use crate::entry::{Entry, closed_by, entry_of, top_behind};
use record::refusal::Refusal;
use record::row::{Kind, PlacedRow};
use roll::Roll;
use sheet::tail::Tail;
use sheet::{Readable, Sheet};

impl<'a> Outline<'a> {
    // An outline with no rows, whose capacity is the entries lent.
    pub fn new(entries: &'a mut [Entry]) -> Outline<'a>
        ensures { model (outline_sealed result) (outline_draft result) (outline_capacity result) outline_cost ≡ model [] [] (length entries.old) outline_cost }
    {
        Outline {
            roll: Roll::new(entries),
            sealed: 0,
            count: 0,
            total: 0,
            top: None,
            tail: Tail::new(),
        }
    }

    fn has_room(&self, row: PlacedRow) -> bool
        ensures { result ≡ nat_le (spent outline_cost (rows_of (items self.now.roll)) + cost_of outline_cost row) (outline_capacity self.now) }
    {
        row.row.kind == u32::from(Kind::End) || self.roll.has_room()
    }

    // Puts a row that has an entry.
    fn put_entry(&mut self, row: PlacedRow)
        requires fine { Ok tt ≡ judged self.old.tail row true }
        requires stays { is_end row ≡ false }
        requires room { length (items self.old.roll) < slot_count self.old.roll }
        ensures rows { rows_of (items self.new.roll) ≡ rows_of (items self.old.roll) ++ row ∷ [] }
        ensures sealed { self.new.count ≡ self.old.count }
        ensures slots { slot_count self.new.roll ≡ slot_count self.old.roll }
    {
        let entry = entry_of(row, self.total, self.top);
        self.top = top_behind(row, self.roll.len(), self.top);
        let _ = self.roll.push(entry);
        self.total += 1;
        self.tail = self.tail.behind(row);
    }

    // Puts an end: the innermost open start is closed.
    fn put_end(&mut self, row: PlacedRow)
        requires fine { Ok tt ≡ judged self.old.tail row true }
        requires ends { is_end row ≡ true }
        ensures rows { rows_of (items self.new.roll) ≡ rows_of (items self.old.roll) ++ row ∷ [] }
        ensures sealed { self.new.count ≡ self.old.count }
        ensures slots { slot_count self.new.roll ≡ slot_count self.old.roll }
    {
        let at = self.top.unwrap();
        let start = self.roll.get(at).unwrap();
        let between = self.roll.len() - 1 - at;
        self.roll.set(at, closed_by(start, row.place, between));
        self.top = start.around;
        self.total += 1;
        self.tail = self.tail.behind(row);
    }
}

impl<'a> Readable for Outline<'a> {
    ghost rows = { outline_sealed };

    ghost paired = { λ s. s.drafted.3 };

    fn count(&self) -> usize {
        self.count
    }

    fn row(&self, n: usize) -> Option<PlacedRow> {
        if n < self.count { self.row_at(n) } else { None }
    }
}

impl<'a> Sheet for Outline<'a> {
    ghost draft = { outline_draft };

    ghost capacity = { outline_capacity };

    ghost cost = { outline_cost };

    fn put(&mut self, row: PlacedRow) -> Result<(), Refusal> {
        self.tail.judge(row, self.has_room(row))?;
        if row.row.kind == u32::from(Kind::End) {
            self.put_end(row);
        } else {
            self.put_entry(row);
        }
        Ok(())
    }

    fn seal(&mut self) -> Result<usize, Refusal> {
        if !self.tail.is_closed() {
            return Err(Refusal::NotForSheet);
        }
        let added = self.total - self.count;
        self.sealed = self.roll.len();
        self.count = self.total;
        self.tail = Tail::new();
        Ok(added)
    }

    fn drop_draft(&mut self) {
        self.roll.truncate(self.sealed);
        self.total = self.count;
        self.top = None;
        self.tail = Tail::new();
    }
}
