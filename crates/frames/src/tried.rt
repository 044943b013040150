ghost use Rattle.std.specs.Prelude.{◌≡◌, ◌&&◌, ◌||◌, IfOk, if◌then◌else◌};
ghost use Rattle.file.specs.Texts.{texts};
ghost use Rattle.knowledge.specs.Understood.{Knows};
ghost use Rattle.rules.specs.Scope.{is_listed, scope_with};
ghost use Rattle.rules.specs.Faults.{first, tag_faults};
ghost use Rattle.rules.specs.States.{is_extension_state, is_alternate_state};
ghost use Rattle.trial.specs.Answers.{refusal_of};
ghost use Rattle.judge.specs.Tags.{tag_of};
ghost use Rattle.judge.specs.Spots.{is_inside, is_behind};
ghost use Rattle.enter.specs.Scopes.{scope_of};
ghost use Rattle.understood.specs.Answers.{Knowing};
ghost use Rattle.frames.specs.Lists.{extension_list};

use crate::frame::Frame;
use crate::names::is_listed;
use card::extensions::Extensions;
use enter::element::try_element;
use enter::in_scope::InScope;
use file::texts::Texts;
use judge::element::Element;
use judge::place::{Spot, try_place};
use record::refusal::Refusal;
use rules::state::State;
use understood::Understood;

// Where an element stands that stands directly in the one around it.
#[tactic(auto, unfolding(rules::specs::States::is_alternate_state))]
fn spot_in(around: Frame) -> Spot
    ensures inside { is_inside result ≡ is_alternate_state around.state }
    ensures behind { is_behind result ≡ is_alternate_state around.state && around.fallback_seen }
{
    if around.state != State::Alternate {
        Spot::Outside
    } else if around.fallback_seen {
        Spot::BehindFallback
    } else {
        Spot::Inside
    }
}

// The trial of an element in the one around it: inside an extension element nothing is tried, of an extension element only its
// place. Answers whether it is one or inside one; otherwise its entries are in scope.
#[tactic(auto, using(judge::proofs::Spots::behind_inside, enter::proofs::Behind::tried_inside), unfolding(rules::specs::Faults::tag_faults, rules::specs::States::is_extension_state))]
pub(crate) fn try_tag(
    element: Element<'_, '_>,
    lent: Texts<'_>,
    known: &Understood,
    extensions: Extensions<'_>,
    around: Frame,
    scope: &mut InScope,
) -> Result<bool, Refusal>
    ensures answer { (knows : Knows) → Knowing (texts lent.entry) knows known.now → refusal_of result ≡ first (tag_faults (is_extension_state around.state) (is_listed (extension_list extensions.entry) (tag_of (texts lent.entry) element.entry)) knows (scope_of (texts lent.entry) scope.old) (is_alternate_state around.state) around.fallback_seen (tag_of (texts lent.entry) element.entry)) }
    ensures extension { IfOk result (λ x. x ≡ is_listed (extension_list extensions.entry) (tag_of (texts lent.entry) element.entry) || is_extension_state around.state) }
    ensures entered { IfOk result (λ x. scope_of (texts lent.entry) scope.new ≡ (if x then scope_of (texts lent.entry) scope.old else scope_with (tag_of (texts lent.entry) element.entry) (scope_of (texts lent.entry) scope.old))) }
{
    if around.state == State::Extension {
        return Ok(true);
    }
    let spot = spot_in(around);
    if is_listed(element, lent, extensions) {
        try_place(element, lent, spot, scope.marks())?;
        return Ok(true);
    }
    let understood = known.has(element.start.row.a);
    try_element(element, lent, understood, spot, scope)?;
    Ok(false)
}
