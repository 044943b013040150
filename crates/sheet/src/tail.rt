ghost use Rattle.std.specs.Prelude.{◌≡◌, ◌+◌, ◌^◌, ◌<◌, [], ◌==◌};
ghost use Rattle.sheet.specs.Rows.{well_formed, closes, is_above};
ghost use Rattle.sheet.specs.Sheets.{follows};
ghost use Rattle.sheet.specs.Tails.{tail_of, judged, tail_behind};

use record::refusal::Refusal;
use record::row::{Kind, PlacedRow, Row};

// What a put has to know of a draft: the place of its last row, and how many starts are open in it.
#[derive(Clone, Copy)]
pub struct Tail {
    last: Option<u32>,
    starts: usize,
}

#[tactic(auto, unfolding(crate::specs::Rows::well_formed))]
fn is_well_formed(row: Row) -> bool
    ensures { result ≡ well_formed row }
{
    match Kind::try_from(row.kind) {
        Ok(Kind::Start | Kind::Declaration) => row.c == 0,
        Ok(Kind::Attribute) => true,
        Ok(Kind::Text) => row.b == 0 && row.c == 0,
        Ok(Kind::End) => row.a == 0 && row.b == 0 && row.c == 0,
        Err(_) => false,
    }
}

impl Tail {
    // The tail of an empty draft.
    #[tactic(auto, unfolding(crate::specs::Rows::open_in, crate::specs::Rows::last_place, crate::specs::Tails::tail_of))]
    pub fn new() -> Tail
        ensures { result ≡ tail_of [] }
    {
        Tail {
            last: None,
            starts: 0,
        }
    }

    pub fn is_closed(self) -> bool
        ensures { result ≡ (self.starts == 0) }
    {
        self.starts == 0
    }

    fn is_below(self, place: u32) -> bool
        ensures { result ≡ is_above self.last place }
    {
        self.last.is_none_or(|last| last < place)
    }

    fn can_close(self, row: PlacedRow) -> bool
        ensures { result ≡ closes self.starts row }
    {
        row.row.kind != u32::from(Kind::End) || self.starts > 0
    }

    #[tactic(auto, unfolding(crate::specs::Sheets::follows))]
    fn can_follow(self, row: PlacedRow) -> bool
        ensures { result ≡ follows self.last self.starts row }
    {
        is_well_formed(row.row) && self.is_below(row.place) && self.can_close(row)
    }

    // Whether a sheet takes a row behind this tail.
    #[tactic(auto, unfolding(crate::specs::Tails::tail_refusal))]
    pub fn judge(self, row: PlacedRow, has_room: bool) -> Result<(), Refusal>
        ensures { result ≡ judged self row has_room }
    {
        if !self.can_follow(row) {
            return Err(Refusal::NotForSheet);
        }
        if !has_room {
            return Err(Refusal::NoRoom { place: row.place });
        }
        Ok(())
    }

    // The tail of the draft with one more row.
    #[tactic(auto, unfolding(crate::specs::Tails::tail_behind))]
    pub fn behind(self, row: PlacedRow) -> Tail
        requires { self.starts + 1 < 2 ^ 64 }
        ensures { result ≡ tail_behind self row }
    {
        let starts = match Kind::try_from(row.row.kind) {
            Ok(Kind::Start) => self.starts + 1,
            Ok(Kind::End) => self.starts.saturating_sub(1),
            _ => self.starts,
        };
        Tail {
            last: Some(row.place),
            starts,
        }
    }
}
