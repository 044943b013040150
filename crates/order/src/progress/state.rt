ghost use Rattle.std.specs.Prelude.{◌≡◌, List};
ghost use Rattle.text.specs.Bytes.{Bytes};
ghost use Rattle.order.specs.Waits.{waiting_tag};
ghost use Rattle.order.specs.Following.{next_place, is_ended, waiting_in};

use super::Progress;
use judge::element::Element;

impl Progress {
    // The place of the row that comes next.
    pub fn place(&self) -> u32
        ensures { result ≡ next_place self.now }
    {
        self.rows
    }

    // Whether the root's end has come.
    pub fn has_ended(&self) -> bool
        ensures { result ≡ is_ended self.now }
    {
        self.depth == 0 && self.rows != 0
    }

    // The element that waits to be judged.
    pub fn element(&self) -> Option<Element<'_, '_>>
        ensures { (ts : List Bytes) → waiting_in ts self.now ≡ waiting_tag ts result }
    {
        self.waiting.element()
    }
}
