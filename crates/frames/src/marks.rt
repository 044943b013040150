ghost use Rattle.std.specs.Prelude.{◌≡◌, not, ◌&&◌, List};
ghost use Rattle.knowledge.specs.Understood.{Knows};
ghost use Rattle.card.specs.Cards.{Name};
ghost use Rattle.rules.specs.Scope.{Scope, is_branch};
ghost use Rattle.rules.specs.Steps.{is_foreign};
ghost use Rattle.rules.specs.Faults.{first};
ghost use Rattle.rules.specs.States.{is_alternate_state, is_ignored_state, is_kept_state, heeds_must, tag_marks_in};
ghost use Rattle.verdict.specs.Views.{scope_seen, tag_seen, Sees};
ghost use Rattle.frames.specs.Stacks.{frame_in};

use crate::frame::Frame;
use crate::states::heeds_must;
use judge::element::Element;
use record::refusal::{Cause, Refusal};
use rules::state::State;
use verdict::view::View;

impl Frame {
    // The element is reached and kept.
    #[tactic(auto, unfolding(rules::specs::States::is_kept_state))]
    fn keeps(self) -> bool
        ensures { result ≡ self.entered && is_kept_state self.state }
    {
        self.entered && self.state == State::Kept
    }

    // MustUnderstand on the element is heeded.
    fn heeds(self) -> bool
        ensures { result ≡ self.entered && heeds_must self.state }
    {
        self.entered && heeds_must(self.state)
    }
}

// A child of an AlternateContent that is reached, neither a branch nor ignored.
#[tactic(auto, unfolding(rules::specs::States::is_alternate_state, rules::specs::States::is_ignored_state))]
fn is_stray(element: Element<'_, '_>, view: View<'_>, around: Frame, frame: Frame) -> bool
    ensures { result ≡ around.entered && is_alternate_state around.state && not (is_branch (tag_seen view.entry element.entry)) && not (is_ignored_state frame.state) }
{
    around.entered
        && around.state == State::Alternate
        && !element.is_branch(view.lent)
        && frame.state != State::Ignored
}

// The element is kept, and its namespace is not understood.
fn keeps_foreign(element: Element<'_, '_>, view: View<'_>, frame: Frame) -> bool
    ensures { (knows : Knows) → Sees view.entry knows → result ≡ frame.entered && is_kept_state frame.state && is_foreign knows (tag_seen view.entry element.entry).namespace }
{
    frame.keeps() && view.is_foreign(element.start.row.a)
}

// The first mismatch of an element's own rows, by the frame around it and its own.
#[tactic(auto, using(crate::proofs::Firsts::tag_marks))]
pub(crate) fn mismatch_of(
    element: Element<'_, '_>,
    view: View<'_>,
    around: Frame,
    frame: Frame,
) -> Option<Refusal>
    ensures { (knows : Knows) (exts : List Name) (out : Scope) → Sees view.entry knows → result ≡ first (tag_marks_in knows exts (frame_in out around) (frame_in (scope_seen view.entry) frame) (tag_seen view.entry element.entry)) }
{
    let cause = if is_stray(element, view, around, frame) {
        Cause::StrayChild
    } else if keeps_foreign(element, view, frame) {
        Cause::ForeignName
    } else {
        return view.attr_mismatch(element.attrs, frame.heeds(), frame.keeps());
    };
    Some(Refusal::Mismatch {
        place: element.start.place,
        cause,
    })
}
