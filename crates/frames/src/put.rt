ghost use Rattle.knowledge.specs.Understood.{Knows};
ghost use Rattle.rules.specs.States.{tag_kept_in};
ghost use Rattle.sheet.specs.Meaning.{meaning};
ghost use Rattle.verdict.specs.Puts.{Puts};
ghost use Rattle.verdict.specs.Views.{scope_seen, tag_seen, Sees};

use crate::frame::Frame;
use judge::element::Element;
use record::refusal::Refusal;
use rules::state::State;
use sheet::Sheet;
use verdict::put::{put_tag, put_whole};
use verdict::view::View;

// Puts the rows of an element's tag that are kept, by the frame that it opened, up to the first refusal.
#[tactic(auto, unfolding(rules::specs::States::tag_kept_in, sheet::specs::Sheets::all_answer, sheet::specs::Sheets::after_all))]
pub fn put_kept<S: Sheet>(
    sheet: &mut S,
    element: Element<'_, '_>,
    view: View<'_>,
    frame: Frame,
) -> Result<(), Refusal>
    ensures { (knows : Knows) → Sees view.entry knows → Puts (meaning S.Readable S.Sheet.own sheet.old) (tag_kept_in knows frame.state frame.entered (scope_seen view.entry) (tag_seen view.entry element.entry)) result (meaning S.Readable S.Sheet.own sheet.new) }
{
    if !frame.entered {
        return Ok(());
    }
    match frame.state {
        State::Kept => put_tag(sheet, element, view),
        State::Extension => put_whole(sheet, element),
        State::Unwrapped | State::Ignored | State::Alternate | State::Branch => Ok(()),
    }
}
