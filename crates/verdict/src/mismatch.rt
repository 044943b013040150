ghost use Rattle.std.specs.Prelude.{◌≡◌, not, ◌&&◌, [], ◌∷◌, map};
ghost use Rattle.items.specs.Items.{items};
ghost use Rattle.knowledge.specs.Understood.{Knows};
ghost use Rattle.rules.specs.Elements.{attr_of};
ghost use Rattle.rules.specs.Scope.{Scope, is_must_understand, named};
ghost use Rattle.rules.specs.Steps.{all_understood, is_foreign, is_kept_attr};
ghost use Rattle.rules.specs.Mismatches.{attr_marks};
ghost use Rattle.rules.specs.Faults.{first};

use crate::view::View;
use attrs::tried::is_list_attr;
use record::refusal::{Cause, Refusal};
use record::row::PlacedRow;
use text::names::McAttribute;

impl<'a> View<'a> {
    ghost use Rattle.verdict.specs.Views.{texts_seen, scope_seen, Sees};

    #[tactic(auto, unfolding(rules::specs::Scope::is_must_understand))]
    fn is_must_understand(self, row: PlacedRow) -> bool
        ensures { result ≡ is_must_understand (attr_of (texts_seen self.entry) row) }
    {
        is_list_attr(row, self.lent, McAttribute::MustUnderstand)
    }

    // A MustUnderstand that is heeded and names a namespace which is not understood.
    #[tactic(auto, unfolding(rules::specs::Elements::attr_of))]
    fn is_unmet(self, row: PlacedRow, heeded: bool) -> bool
        ensures { (knows : Knows) → Sees self.entry knows → result ≡ heeded && is_must_understand (attr_of (texts_seen self.entry) row) && not (all_understood knows (named (scope_seen self.entry).bindings (items (attr_of (texts_seen self.entry) row).value))) }
    {
        heeded && self.is_must_understand(row) && !self.all_understood(self.lent.at(row.row.c))
    }

    // An attribute that is kept, in a namespace that is not understood.
    #[tactic(auto, unfolding(rules::specs::Elements::attr_of))]
    fn is_kept_foreign(self, row: PlacedRow, kept: bool) -> bool
        ensures { (knows : Knows) → Sees self.entry knows → result ≡ kept && is_kept_attr knows (scope_seen self.entry).ignorables (attr_of (texts_seen self.entry) row) && is_foreign knows (attr_of (texts_seen self.entry) row).namespace }
    {
        kept && self.keeps_attr(row) && self.is_foreign(row.row.a)
    }

    // The first mismatch of one attribute.
    #[tactic(auto, using(crate::proofs::Marks::marks_one), unfolding(rules::specs::Elements::attr_of))]
    fn mismatch_of(self, row: PlacedRow, heeded: bool, kept: bool) -> Option<Refusal>
        ensures { (knows : Knows) → Sees self.entry knows → result ≡ first (attr_marks knows heeded kept (scope_seen self.entry) (attr_of (texts_seen self.entry) row ∷ [])) }
    {
        let cause = if self.is_unmet(row, heeded) {
            Cause::MustUnderstand
        } else if self.is_kept_foreign(row, kept) {
            Cause::ForeignName
        } else {
            return None;
        };
        Some(Refusal::Mismatch {
            place: row.place,
            cause,
        })
    }

    // The first mismatch of an element's attributes, where MustUnderstand is `heeded` and where attributes are `kept`.
    pub fn attr_mismatch(self, attrs: &[PlacedRow], heeded: bool, kept: bool) -> Option<Refusal>
        ensures { (knows : Knows) (s : Scope) → Sees self.entry knows → s.bindings ≡ (scope_seen self.entry).bindings → s.ignorables ≡ (scope_seen self.entry).ignorables → result ≡ first (attr_marks knows heeded kept s (map (attr_of (texts_seen self.entry)) attrs.now)) }
    {
        attrs
            .iter()
            .find_map(|x| self.mismatch_of(*x, heeded, kept))
    }
}
