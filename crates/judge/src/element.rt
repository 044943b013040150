ghost use Rattle.std.specs.Prelude.{◌≡◌};
ghost use Rattle.file.specs.Texts.{texts};
ghost use Rattle.rules.specs.Scope.{mc_element, is_choice, is_branch};
ghost use Rattle.judge.specs.Tags.{tag_of};

use file::texts::Texts;
use record::row::PlacedRow;
use text::names::{McElement, is_mc, mc_element};

// An element that waits to be judged: its start, its declarations and its attributes.
// Kept: the texts stand beside it, since an element is made where its rows wait, and no texts are lent there.
#[derive(Clone, Copy)]
pub struct Element<'d, 'a> {
    pub start: PlacedRow,
    pub decls: &'d [PlacedRow],
    pub attrs: &'a [PlacedRow],
}

impl<'d, 'a> Element<'d, 'a> {
    // The element of markup compatibility that it is, if it is one.
    pub fn mc(self, lent: Texts<'_>) -> Option<McElement>
        ensures { result ≡ mc_element (tag_of (texts lent.entry) self.entry) }
    {
        if !is_mc(lent.at(self.start.row.a)) {
            return None;
        }
        mc_element(lent.at(self.start.row.b))
    }

    pub fn is_choice(self, lent: Texts<'_>) -> bool
        ensures { result ≡ is_choice (tag_of (texts lent.entry) self.entry) }
    {
        self.mc(lent) == Some(McElement::Choice)
    }

    pub fn is_branch(self, lent: Texts<'_>) -> bool
        ensures { result ≡ is_branch (tag_of (texts lent.entry) self.entry) }
    {
        matches!(self.mc(lent), Some(McElement::Choice | McElement::Fallback))
    }
}
