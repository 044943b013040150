ghost use Rattle.std.specs.Prelude.{◌≡◌};
ghost use Rattle.knowledge.specs.Understood.{Knows};
ghost use Rattle.rules.specs.Elements.{decl_of, attr_of};
ghost use Rattle.rules.specs.Steps.{is_kept_decl, is_kept_attr};

use crate::view::View;
use record::row::PlacedRow;
use scope::find::is_marked;
use text::names::is_mc;

impl<'a> View<'a> {
    ghost use Rattle.verdict.specs.Views.{texts_seen, scope_seen, Sees};

    // Whether a kept element keeps this declaration.
    #[tactic(auto, unfolding(rules::specs::Steps::is_kept_decl, rules::specs::Elements::decl_of))]
    pub fn keeps_decl(self, row: PlacedRow) -> bool
        ensures { (knows : Knows) → Sees self.entry knows → result ≡ is_kept_decl knows (scope_seen self.entry).ignorables (decl_of (texts_seen self.entry) row) }
    {
        let namespace = self.lent.at(row.row.b);
        !is_mc(namespace)
            && (self.known.has(row.row.b) || !is_marked(namespace, self.lent, self.marks))
    }

    // Whether a kept element keeps this attribute.
    #[tactic(auto, unfolding(rules::specs::Steps::is_kept_attr, rules::specs::Elements::attr_of))]
    pub fn keeps_attr(self, row: PlacedRow) -> bool
        ensures { (knows : Knows) → Sees self.entry knows → result ≡ is_kept_attr knows (scope_seen self.entry).ignorables (attr_of (texts_seen self.entry) row) }
    {
        !is_mc(self.lent.at(row.row.a)) && !self.is_dispensable(row.row.a)
    }
}
