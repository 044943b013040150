ghost use Rattle.std.specs.Prelude.{◌≡◌, []};
ghost use Rattle.items.specs.Items.{items};
ghost use Rattle.knowledge.specs.Understood.{Knows};
ghost use Rattle.rules.specs.Scope.{bound, cons_some, named, items_of, requires_of};
ghost use Rattle.rules.specs.Steps.{all_understood};

use crate::view::View;
use attrs::tried::requires_attr;
use items::list::Items;
use judge::element::Element;
use scope::find::space_of;

impl<'a> View<'a> {
    ghost use Rattle.verdict.specs.Views.{scope_seen, tag_seen, Sees};

    // Whether the namespace that a prefix names, if it names one, is understood.
    #[tactic(auto, using(crate::proofs::Views::spaces), unfolding(rules::specs::Scope::cons_some, rules::specs::Steps::all_understood))]
    fn is_prefix_understood(self, prefix: &[u8]) -> bool
        ensures { (knows : Knows) → Sees self.entry knows → result ≡ all_understood knows (cons_some (bound (scope_seen self.entry).bindings prefix.now) []) }
    {
        let space = space_of(prefix, self.lent, self.bindings);
        space.is_none_or(|space| self.known.has_space(space))
    }

    // Whether all namespaces that the items of a value name are understood.
    pub fn all_understood(self, value: &[u8]) -> bool
        ensures { (knows : Knows) → Sees self.entry knows → result ≡ all_understood knows (named (scope_seen self.entry).bindings (items value.now)) }
    {
        Items::of(value).all(|item| self.is_prefix_understood(item))
    }

    // Whether all namespaces that an element requires are understood, by what is in scope at it.
    #[tactic(auto, unfolding(rules::specs::Elements::attr_of, rules::specs::Scope::requires_of, rules::specs::Scope::items_of, rules::specs::Scope::named, rules::specs::Steps::all_understood))]
    pub fn is_satisfied(self, element: Element<'_, '_>) -> bool
        ensures { (knows : Knows) → Sees self.entry knows → result ≡ all_understood knows (named (scope_seen self.entry).bindings (items_of (requires_of (tag_seen self.entry element.entry)))) }
    {
        match requires_attr(element.attrs, self.lent) {
            Some(x) => self.all_understood(self.lent.at(x.row.c)),
            None => true,
        }
    }
}
