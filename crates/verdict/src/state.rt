ghost use Rattle.std.specs.Prelude.{◌≡◌, false, None};
ghost use Rattle.knowledge.specs.Understood.{Knows};
ghost use Rattle.rules.specs.Scope.{Scope, is_processed_in};
ghost use Rattle.rules.specs.Steps.{is_dispensable};
ghost use Rattle.rules.specs.States.{state_by, state_in};

use crate::view::View;
use judge::element::Element;
use rules::state::State;
use scope::find::is_paired;
use text::names::McElement;

impl<'a> View<'a> {
    ghost use Rattle.verdict.specs.Views.{scope_seen, tag_seen, Sees};

    // The state of an element that is neither of markup compatibility nor in an extension element.
    #[tactic(auto, unfolding(rules::specs::States::state_by))]
    fn state_outside(self, element: Element<'_, '_>) -> State
        ensures { (knows : Knows) → Sees self.entry knows → result ≡ state_by false None (is_dispensable knows (scope_seen self.entry).ignorables (tag_seen self.entry element.entry).namespace) (is_processed_in (scope_seen self.entry).processed (tag_seen self.entry element.entry).namespace (tag_seen self.entry element.entry).name) }
    {
        let start = element.start.row;
        if !self.is_dispensable(start.a) {
            State::Kept
        } else if is_paired(
            self.lent.at(start.a),
            self.lent.at(start.b),
            self.lent,
            self.pairs,
        ) {
            State::Unwrapped
        } else {
            State::Ignored
        }
    }

    // The state of an element; `extension` says that it is on the extension list or inside such an element.
    #[tactic(auto, unfolding(rules::specs::States::state_by, rules::specs::States::state_in))]
    pub fn state_of(self, element: Element<'_, '_>, extension: bool) -> State
        ensures { (knows : Knows) (s : Scope) → Sees self.entry knows → s.ignorables ≡ (scope_seen self.entry).ignorables → s.processed ≡ (scope_seen self.entry).processed → result ≡ state_in knows extension s (tag_seen self.entry element.entry) }
    {
        if extension {
            return State::Extension;
        }
        match element.mc(self.lent) {
            Some(McElement::AlternateContent) => State::Alternate,
            Some(McElement::Choice | McElement::Fallback) => State::Branch,
            None => self.state_outside(element),
        }
    }
}
