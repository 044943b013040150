ghost use Rattle.std.specs.Prelude.{◌≡◌, List, [], ◌∷◌, Some};
ghost use Rattle.text.specs.Bytes.{Bytes};
ghost use Rattle.record.specs.Rows.{kind_of};
ghost use Rattle.rules.specs.Order.{row_faults};
ghost use Rattle.order.specs.Following.{Follows};

use crate::waiting::Waiting;
use record::row::{Kind, PlacedRow, Row};

pub mod next;
pub mod state;

// How far a record has come: its rows, the elements that are open, and the element that waits to be judged.
#[derive(Drop)]
pub struct Progress {
    rows: u32,
    depth: usize,
    waiting: Waiting,
}

impl Progress {
    // No row has come.
    pub fn new() -> Progress
        ensures { (ts : List Bytes) → Follows ts [] result }
    {
        Progress {
            rows: 0,
            depth: 0,
            waiting: Waiting::none(),
        }
    }

    // For the next record.
    pub fn reset(&mut self)
        ensures { (ts : List Bytes) → Follows ts [] self.new }
    {
        self.rows = 0;
        self.depth = 0;
        self.waiting.clear();
    }

    // A row of this kind was accepted.
    pub fn note(&mut self, row: Row, kind: Kind)
        ensures { (ts : List Bytes) (past : List Row) → kind_of row.kind ≡ Some kind → Follows ts past self.old → row_faults ts past row ≡ [] → Follows ts (row ∷ past) self.new }
    {
        let placed = PlacedRow {
            place: self.rows,
            row,
        };
        self.rows = self.rows.saturating_add(1);
        match kind {
            Kind::Start => {
                self.depth = self.depth.saturating_add(1);
                self.waiting.begin(placed);
            }
            Kind::Declaration => self.waiting.add_decl(placed),
            Kind::Attribute => self.waiting.add_attr(placed),
            Kind::Text => self.waiting.clear(),
            Kind::End => {
                self.depth = self.depth.saturating_sub(1);
                self.waiting.clear();
            }
        }
    }
}
