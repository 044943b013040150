ghost use Rattle.std.specs.Prelude.{◌≡◌, false, not, ◌&&◌};
ghost use Rattle.sheet.specs.Meaning.{meaning};
ghost use Rattle.calls.specs.Calls.{put};
ghost use Rattle.course.specs.Rows.{keeps_in, ends_empty, is_keep, is_refuse, row_in};

use frames::frame::Frame;
use record::refusal::Refusal;
use record::row::{Kind, PlacedRow};
use rules::state::State;
use sheet::Sheet;

// What becomes of a row in the element around it.
#[derive(Clone, Copy)]
pub enum Fate {
    Keep,
    Leave,
    Refuse,
}

// Each row is judged by the state of the element around it together with its own kind. The rows of an element's tag wait with it.
#[tactic(auto, unfolding(rules::specs::States::is_alternate_state, rules::specs::States::keeps_text, rules::specs::States::keeps_end))]
fn becomes(around: Frame, kind: Kind) -> Fate
    ensures keeps { is_keep result ≡ (around.entered && keeps_in around.state kind) }
    ensures refuses { is_refuse result ≡ ends_empty around kind }
{
    match (around.state, kind) {
        (_, Kind::Start | Kind::Declaration | Kind::Attribute) => Fate::Leave,
        (State::Kept | State::Extension, Kind::Text | Kind::End) => kept_if(around.entered),
        (State::Unwrapped | State::Branch, Kind::Text) => kept_if(around.entered),
        (State::Unwrapped | State::Branch, Kind::End) => Fate::Leave,
        (State::Ignored, Kind::Text | Kind::End) => Fate::Leave,
        (State::Alternate, Kind::Text) => Fate::Leave,
        (State::Alternate, Kind::End) => refused_unless(around.choice_seen),
    }
}

fn kept_if(entered: bool) -> Fate
    ensures keeps { is_keep result ≡ entered }
    ensures refuses { is_refuse result ≡ false }
{
    if entered { Fate::Keep } else { Fate::Leave }
}

// AlternateContent has at least one Choice.
fn refused_unless(choice_seen: bool) -> Fate
    ensures keeps { is_keep result ≡ false }
    ensures refuses { is_refuse result ≡ not choice_seen }
{
    if choice_seen {
        Fate::Leave
    } else {
        Fate::Refuse
    }
}

// Judges a text or an end, and puts it if it is kept.
#[tactic(auto, unfolding(rules::specs::Faults::fault, rules::specs::Steps::when, sheet::specs::Sheets::all_answer, sheet::specs::Sheets::after_all))]
pub(crate) fn judge_row<S: Sheet>(
    sheet: &mut S,
    around: Frame,
    row: PlacedRow,
    kind: Kind,
) -> Result<(), Refusal>
    ensures { put result (meaning S.Readable S.Sheet.own sheet.new) ≡ row_in (meaning S.Readable S.Sheet.own sheet.old) around kind row }
{
    match becomes(around, kind) {
        Fate::Keep => sheet.put(row),
        Fate::Leave => Ok(()),
        Fate::Refuse => Err(Refusal::Misplaced { place: row.place }),
    }
}
