ghost use Rattle.std.specs.Prelude.{◌≡◌, [], ◌∷◌, IfOk, OnOk};
ghost use Rattle.file.specs.Texts.{texts};
ghost use Rattle.knowledge.specs.Understood.{Knows};
ghost use Rattle.rules.specs.Elements.{tag};
ghost use Rattle.rules.specs.Faults.{first};
ghost use Rattle.rules.specs.States.{faults_in};
ghost use Rattle.trial.specs.Answers.{refusal_of};
ghost use Rattle.judge.specs.Tags.{tag_of};
ghost use Rattle.enter.specs.Scopes.{scope_of};
ghost use Rattle.understood.specs.Answers.{Knowing};
ghost use Rattle.frames.specs.Lists.{extension_list};
ghost use Rattle.frames.specs.Stacks.{frame_in, Grown};
ghost use Rattle.frames.specs.Opens.{Opens};

use crate::frame::Frame;
use crate::open::open;
use crate::opened::Opened;
use crate::tried::try_tag;
use card::extensions::Extensions;
use enter::in_scope::InScope;
use file::texts::Texts;
use judge::element::Element;
use record::refusal::Refusal;
use understood::Understood;
use verdict::view::View;

// Judges a start with its declarations and attributes in the element around it: tries it, and says what it opens. Where it passes, its
// entries are in scope.
// Kept: what a view holds comes apart here and in `try_tag`, since a view lends what is in scope and a trial adds to it.
#[tactic(auto, unfolding(rules::specs::States::faults_in, crate::specs::Lists::extension_list))]
pub fn judge(
    element: Element<'_, '_>,
    lent: Texts<'_>,
    known: &Understood,
    extensions: Extensions<'_>,
    around: Frame,
    scope: &mut InScope,
) -> Result<Opened, Refusal>
    ensures answer { (knows : Knows) → Knowing (texts lent.entry) knows known.now → refusal_of result ≡ first (faults_in knows (extension_list extensions.entry) (tag (tag_of (texts lent.entry) element.entry)) (frame_in (scope_of (texts lent.entry) scope.old) around ∷ [])) }
    ensures opens { (knows : Knows) → Knowing (texts lent.entry) knows known.now → IfOk result (λ o. Opens knows (extension_list extensions.entry) (scope_of (texts lent.entry) scope.old) (scope_of (texts lent.entry) scope.new) around (tag_of (texts lent.entry) element.entry) o) }
    ensures grown { OnOk result (Grown (scope_of (texts lent.entry) scope.old) (scope_of (texts lent.entry) scope.new)) }
{
    let extension = try_tag(element, lent, known, extensions, around, scope)?;
    let view = View {
        lent,
        known,
        bindings: scope.bindings(),
        marks: scope.marks(),
        pairs: scope.pairs(),
    };
    Ok(open(element, view, extension, around))
}
