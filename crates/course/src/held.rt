ghost use Rattle.std.specs.Prelude.{◌≡◌, ◌<◌, List, ◌∷◌, length};
ghost use mathlib.Core.List.{tail};
ghost use Rattle.std.specs.Option.{option_or};
ghost use Rattle.text.specs.Bytes.{Bytes};
ghost use Rattle.enter.specs.Scopes.{scope_of, scope_before};
ghost use Rattle.frames.specs.Stacks.{innermost as first_of, renoted};
ghost use Rattle.course.specs.Standing.{frames_of, SameRecord};

use crate::Course;
use frames::frame::{Frame, GROUND};
use frames::opened::Opened;

impl Course {
    // The frame of the innermost open element that is judged, or what is around the root.
    pub(crate) fn innermost(&self) -> Frame
        ensures { result ≡ first_of (frames_of self.now) }
    {
        self.frames.entries().last().copied().unwrap_or(GROUND)
    }

    // Holds the frame that a start opened, and the note of it in the frame around.
    #[tactic(auto, using(crate::proofs::Lists::opened_last))]
    pub(crate) fn hold(&mut self, opened: Opened)
        ensures frames { length (frames_of self.old) < 64 → frames_of self.new ≡ opened.frame ∷ renoted opened.around (frames_of self.old) }
        ensures mismatch { self.new.mismatch ≡ option_or self.old.mismatch opened.mismatch }
        ensures same_record { SameRecord self.old self.new }
        ensures scope { self.new.scope ≡ self.old.scope }
    {
        self.renote(opened.around);
        let _ = self.frames.add(opened.frame);
        self.mismatch = self.mismatch.or(opened.mismatch);
    }

    // Puts a frame in place of the innermost.
    #[tactic(auto, using(crate::proofs::Lists::renoted_last, crate::proofs::Lists::held_few))]
    fn renote(&mut self, frame: Frame)
        ensures frames { frames_of self.new ≡ renoted frame (frames_of self.old) }
        ensures mismatch { self.new.mismatch ≡ self.old.mismatch }
        ensures same_record { SameRecord self.old self.new }
        ensures scope { self.new.scope ≡ self.old.scope }
    {
        let open = self.frames.len();
        if open == 0 {
            return;
        }
        self.frames.cut(open - 1);
        let _ = self.frames.add(frame);
    }

    // Lets the innermost element go, with what it brought into scope.
    #[tactic(auto, using(crate::proofs::Lists::cut_last))]
    pub(crate) fn close(&mut self)
        ensures frames { frames_of self.new ≡ tail (frames_of self.old) }
        ensures scope { (names : List Bytes) → scope_of names self.new.scope ≡ scope_before (first_of (tail (frames_of self.old))).lengths (scope_of names self.old.scope) }
        ensures mismatch { self.new.mismatch ≡ self.old.mismatch }
        ensures same_record { SameRecord self.old self.new }
    {
        self.frames.cut(self.frames.len().saturating_sub(1));
        let lengths = self.innermost().lengths;
        self.scope.cut(lengths);
    }
}
