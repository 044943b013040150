ghost use Rattle.std.specs.Prelude.{◌≡◌, not, ◌&&◌, ◌||◌, List, if◌then◌else◌};
ghost use Rattle.knowledge.specs.Understood.{Knows};
ghost use Rattle.card.specs.Cards.{Name, OutsideMc};
ghost use Rattle.rules.specs.Scope.{Scope, mc_element, is_choice, is_listed, items_of, requires_of, named, scope_with};
ghost use Rattle.rules.specs.Steps.{all_understood};
ghost use Rattle.rules.specs.States.{is_extension_state, is_alternate_state, state_in};
ghost use Rattle.enter.specs.Scopes.{sizes};
ghost use Rattle.verdict.specs.Views.{scope_seen, tag_seen, Sees};
ghost use Rattle.frames.specs.Parts.{reached_from, selected_from, opened_from, noted_from};
ghost use Rattle.frames.specs.Opens.{Opens};

use crate::frame::Frame;
use crate::marks::mismatch_of;
use crate::opened::Opened;
use crate::states::is_entered;
use enter::in_scope::Lengths;
use judge::element::Element;
use rules::state::State;
use text::names::McElement;
use verdict::view::View;

impl Frame {
    // Whether a child is reached.
    #[tactic(auto, unfolding(rules::specs::States::is_alternate_state))]
    fn reaches(self, name: Option<McElement>) -> bool
        ensures { result ≡ reached_from self name }
    {
        self.entered
            && (self.state != State::Alternate
                || matches!(name, Some(McElement::Choice | McElement::Fallback)))
    }

    // Whether a child is selected.
    fn selects(self, name: Option<McElement>, met: bool) -> bool
        ensures { result ≡ selected_from self name met }
    {
        !self.choice_selected && (name == Some(McElement::Fallback) || met)
    }

    // The frame with its note of a child.
    #[tactic(auto, unfolding(rules::specs::States::is_alternate_state))]
    fn note(self, name: Option<McElement>, met: bool) -> Frame
        ensures { result ≡ (if is_alternate_state self.state then noted_from self name met else self) }
    {
        if self.state != State::Alternate {
            return self;
        }
        Frame {
            choice_selected: self.choice_selected || met,
            choice_seen: name == Some(McElement::Choice) || self.choice_seen,
            fallback_seen: name == Some(McElement::Fallback) || self.fallback_seen,
            ..self
        }
    }
}

// Whether the element is a Choice outside extension elements, and all that it requires is understood.
fn is_met(element: Element<'_, '_>, view: View<'_>, extension: bool) -> bool
    ensures { (knows : Knows) → Sees view.entry knows → result ≡ not extension && (is_choice (tag_seen view.entry element.entry) && all_understood knows (named (scope_seen view.entry).bindings (items_of (requires_of (tag_seen view.entry element.entry))))) }
{
    !extension && element.is_choice(view.lent) && view.is_satisfied(element)
}

// The frame of an element, by what is in scope at it.
#[tactic(auto, using(crate::proofs::Sizes::sizes_seen))]
fn frame_of(
    element: Element<'_, '_>,
    view: View<'_>,
    extension: bool,
    around: Frame,
    met: bool,
) -> Frame
    ensures { (knows : Knows) → Sees view.entry knows → result ≡ opened_from (state_in knows extension (scope_seen view.entry) (tag_seen view.entry element.entry)) around (mc_element (tag_seen view.entry element.entry)) met (sizes (scope_seen view.entry)) }
{
    let state = view.state_of(element, extension);
    let name = element.mc(view.lent);
    Frame {
        state,
        entered: is_entered(state, around.reaches(name), around.selects(name, met)),
        choice_selected: false,
        choice_seen: false,
        fallback_seen: false,
        lengths: Lengths {
            bindings: view.bindings.len(),
            marks: view.marks.len(),
            pairs: view.pairs.len(),
        },
    }
}

// What a start opens that passed its trial, by what is in scope at it; `extension` says that it is on the extension list or inside such
// an element.
pub(crate) fn open(
    element: Element<'_, '_>,
    view: View<'_>,
    extension: bool,
    around: Frame,
) -> Opened
    ensures { (knows : Knows) (exts : List Name) (out : Scope) → Sees view.entry knows → OutsideMc exts → extension ≡ is_listed exts (tag_seen view.entry element.entry) || is_extension_state around.state → scope_seen view.entry ≡ (if extension then out else scope_with (tag_seen view.entry element.entry) out) → Opens knows exts out (scope_seen view.entry) around (tag_seen view.entry element.entry) result }
{
    let met = is_met(element, view, extension);
    let frame = frame_of(element, view, extension, around, met);
    Opened {
        frame,
        around: around.note(element.mc(view.lent), met),
        mismatch: mismatch_of(element, view, around, frame),
    }
}
