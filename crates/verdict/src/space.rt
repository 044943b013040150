ghost use Rattle.std.specs.Prelude.{◌≡◌};
ghost use Rattle.file.specs.Form.{text_at};
ghost use Rattle.knowledge.specs.Understood.{Knows};
ghost use Rattle.rules.specs.Steps.{is_foreign, is_dispensable};

use crate::view::View;
use scope::find::is_marked;
use text::names::is_mc;

impl<'a> View<'a> {
    ghost use Rattle.verdict.specs.Views.{texts_seen, scope_seen, Sees};

    // Whether the namespace of this number is a namespace and not understood.
    #[tactic(auto, using(items::proofs::Fronts::empty_length), unfolding(rules::specs::Steps::is_foreign))]
    pub fn is_foreign(self, n: u32) -> bool
        ensures { (knows : Knows) → Sees self.entry knows → result ≡ is_foreign knows (text_at (texts_seen self.entry) n) }
    {
        !self.lent.at(n).is_empty() && !self.known.has(n)
    }

    // Whether what has the namespace of this number may be ignored.
    #[tactic(auto, unfolding(rules::specs::Steps::is_dispensable))]
    pub fn is_dispensable(self, n: u32) -> bool
        ensures { (knows : Knows) → Sees self.entry knows → result ≡ is_dispensable knows (scope_seen self.entry).ignorables (text_at (texts_seen self.entry) n) }
    {
        let namespace = self.lent.at(n);
        !is_mc(namespace) && self.is_foreign(n) && is_marked(namespace, self.lent, self.marks)
    }
}
