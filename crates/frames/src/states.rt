ghost use Rattle.std.specs.Prelude.{◌≡◌, ◌&&◌};
ghost use Rattle.rules.specs.States.{heeds_must, entered_by};

use rules::state::State;

// Whether MustUnderstand on an element of this state is heeded.
#[tactic(auto, unfolding(rules::specs::States::heeds_must))]
pub(crate) fn heeds_must(state: State) -> bool
    ensures { result ≡ heeds_must state }
{
    matches!(
        state,
        State::Kept | State::Unwrapped | State::Alternate | State::Branch
    )
}

// Whether what stands directly in an element of this state is reached.
#[tactic(auto, unfolding(rules::specs::States::entered_by))]
pub(crate) fn is_entered(state: State, reached: bool, selected: bool) -> bool
    ensures { result ≡ entered_by state reached selected }
{
    match state {
        State::Kept | State::Unwrapped | State::Alternate | State::Extension => reached,
        State::Ignored => false,
        State::Branch => reached && selected,
    }
}
