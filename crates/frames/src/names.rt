ghost use Rattle.std.specs.Prelude.{◌≡◌};
ghost use Rattle.file.specs.Texts.{texts};
ghost use Rattle.rules.specs.Scope.{is_listed};
ghost use Rattle.judge.specs.Tags.{tag_of};
ghost use Rattle.frames.specs.Lists.{extension_list};

use card::extensions::Extensions;
use file::texts::Texts;
use judge::element::Element;
use text::names::is_mc;

// Whether an element is on the extension list, which names none of markup compatibility.
#[tactic(auto, using(card::proofs::Outside::extensions_outside), unfolding(rules::specs::Scope::is_listed, crate::specs::Lists::extension_list))]
pub(crate) fn is_listed(
    element: Element<'_, '_>,
    lent: Texts<'_>,
    extensions: Extensions<'_>,
) -> bool
    ensures { result ≡ is_listed (extension_list extensions.entry) (tag_of (texts lent.entry) element.entry) }
{
    let namespace = lent.at(element.start.row.a);
    !is_mc(namespace) && extensions.has(namespace, lent.at(element.start.row.b))
}
