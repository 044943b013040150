use enter::in_scope::Lengths;
use rules::state::State;

// An open element, as far as what stands in it is judged by it.
#[derive(Clone, Copy)]
pub struct Frame {
    pub state: State,
    // It is reached, and so is what stands directly in it.
    pub entered: bool,
    // Of an AlternateContent, by its children so far.
    pub choice_selected: bool,
    pub choice_seen: bool,
    pub fallback_seen: bool,
    // How many entries the lists in scope have at it.
    pub lengths: Lengths,
}

// Around the root: everything there is reached, and no text is kept.
pub const GROUND: Frame = Frame {
    state: State::Ignored,
    entered: true,
    choice_selected: false,
    choice_seen: false,
    fallback_seen: false,
    lengths: Lengths {
        bindings: 0,
        marks: 0,
        pairs: 0,
    },
};
