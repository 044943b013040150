ghost use Rattle.std.specs.Prelude.{◌≡◌, List};
ghost use Rattle.text.specs.Bytes.{Bytes};
ghost use Rattle.rules.specs.Scope.{no_scope};
ghost use Rattle.scope.specs.Bounded.{held};
ghost use Rattle.enter.specs.Scopes.{scope_of, lengths_of, scope_before};

use scope::bounded::Bounded;
use scope::entries::{Bindings, Bound, Mark, Marks, Pair, Pairs, Space};

// The three lists in scope at the innermost open element.
#[derive(Drop)]
pub struct InScope {
    pub(crate) bindings: Bindings,
    pub(crate) marks: Marks,
    pub(crate) pairs: Pairs,
}

// How many entries each list has.
#[derive(Clone, Copy)]
pub struct Lengths {
    pub bindings: usize,
    pub marks: usize,
    pub pairs: usize,
}

impl InScope {
    pub fn new() -> InScope
        ensures { (texts : List Bytes) → scope_of texts result ≡ no_scope }
    {
        let bindings = Bounded::new(Bound {
            prefix: 0,
            space: 0,
        });
        let marks = Bounded::new(Mark { space: Space::Xml });
        let pairs = Bounded::new(Pair {
            space: Space::Xml,
            text: 0,
            from: 0,
            to: 0,
        });
        InScope {
            bindings,
            marks,
            pairs,
        }
    }

    pub fn lengths(&self) -> Lengths
        ensures { result ≡ lengths_of self.now }
    {
        Lengths {
            bindings: self.bindings.len(),
            marks: self.marks.len(),
            pairs: self.pairs.len(),
        }
    }

    // Leaves what was in scope when the lists had these lengths.
    pub fn cut(&mut self, to: Lengths)
        ensures { (texts : List Bytes) → scope_of texts self.new ≡ scope_before to (scope_of texts self.old) }
    {
        self.bindings.cut(to.bindings);
        self.marks.cut(to.marks);
        self.pairs.cut(to.pairs);
    }

    pub fn bindings(&self) -> &[Bound]
        ensures { result.now ≡ held self.now.bindings }
    {
        self.bindings.entries()
    }

    pub fn marks(&self) -> &[Mark]
        ensures { result.now ≡ held self.now.marks }
    {
        self.marks.entries()
    }

    pub fn pairs(&self) -> &[Pair]
        ensures { result.now ≡ held self.now.pairs }
    {
        self.pairs.entries()
    }
}
