ghost use Rattle.std.specs.Prelude.{◌≡◌, ◌<◌, true, List, length, is_some};
ghost use Rattle.text.specs.Bytes.{Bytes};
ghost use Rattle.enter.specs.Scopes.{scope_of};
ghost use Rattle.frames.specs.Stacks.{innermost as first_of};
ghost use Rattle.course.specs.Standing.{frames_of, SameRecord};
ghost use Rattle.course.specs.Taking.{with_opened, with_mark, closed_at, scope_at, of_tag};

use crate::Course;
use frames::frame::Frame;
use frames::opened::Opened;
use record::row::Kind;

// A declaration or an attribute, which waits with its element.
pub(crate) fn is_of_tag(kind: Kind) -> bool
    ensures { result ≡ of_tag kind }
{
    matches!(kind, Kind::Declaration | Kind::Attribute)
}

impl Course {
    // The frame around what comes behind an element that may have been opened.
    pub(crate) fn around(&self, opened: Option<Opened>) -> Frame
        ensures { result ≡ first_of (with_opened opened (frames_of self.now)) }
    {
        opened.map_or_else(|| self.innermost(), |o| o.frame)
    }

    // Holds what a start opened, if one did.
    pub(crate) fn hold_any(&mut self, opened: Option<Opened>)
        ensures frames { (is_some opened ≡ true → length (frames_of self.old) < 64) → frames_of self.new ≡ with_opened opened (frames_of self.old) }
        ensures mismatch { self.new.mismatch ≡ with_mark opened self.old.mismatch }
        ensures same_record { SameRecord self.old self.new }
        ensures scope { self.new.scope ≡ self.old.scope }
    {
        if let Some(o) = opened {
            self.hold(o);
        }
    }

    // At an end the innermost element goes.
    pub(crate) fn close_at(&mut self, kind: Kind)
        ensures frames { frames_of self.new ≡ closed_at kind (frames_of self.old) }
        ensures scope { (names : List Bytes) → scope_of names self.new.scope ≡ scope_at kind (frames_of self.old) (scope_of names self.old.scope) }
        ensures mismatch { self.new.mismatch ≡ self.old.mismatch }
        ensures same_record { SameRecord self.old self.new }
    {
        if kind == Kind::End {
            self.close();
        }
    }
}
