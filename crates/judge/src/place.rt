ghost use Rattle.std.specs.Prelude.{◌≡◌, Bool, not, ◌&&◌, is_some};
ghost use Rattle.file.specs.Texts.{texts};
ghost use Rattle.text.specs.Names.{in_mc};
ghost use Rattle.rules.specs.Scope.{is_ignorable_in, is_choice, requires_of};
ghost use Rattle.rules.specs.Faults.{first, start_name_faults, place_faults, attr_faults, choice_faults};
ghost use Rattle.scope.specs.Entries.{bindings_of, ignorables_of};
ghost use Rattle.trial.specs.Answers.{refusal_of};
ghost use Rattle.judge.specs.Tags.{tag_of};
ghost use Rattle.judge.specs.Spots.{is_inside, is_behind};

use crate::element::Element;
use crate::lists::try_requires;
use attrs::tried::{requires_attr, try_bad};
use file::texts::Texts;
use record::refusal::Refusal;
use scope::entries::{Bound, Mark};
use scope::find::is_marked;
use text::names::{is_mc, mc_element};

// Where an element stands.
#[derive(Clone, Copy, PartialEq, Eq, Debug)]
pub enum Spot {
    // Not directly in an AlternateContent.
    Outside,
    // Directly in one, and behind no Fallback there.
    Inside,
    // Directly in one, behind a Fallback.
    BehindFallback,
}

impl Spot {
    // Directly in an AlternateContent or not, and behind a Fallback or not, which counts inside only.
    pub fn of(inside: bool, behind: bool) -> Spot
        ensures inside { is_inside result ≡ inside }
        ensures behind { is_behind result ≡ inside && behind }
    {
        match (inside, behind) {
            (false, _) => Spot::Outside,
            (true, false) => Spot::Inside,
            (true, true) => Spot::BehindFallback,
        }
    }
}

// An element in markup compatibility is one that it has.
pub fn try_start(element: Element<'_, '_>, lent: Texts<'_>) -> Result<(), Refusal>
    ensures { refusal_of result ≡ first (start_name_faults (tag_of (texts lent.entry) element.entry)) }
{
    if is_mc(lent.at(element.start.row.a)) && mc_element(lent.at(element.start.row.b)).is_none() {
        return Err(Refusal::UnknownName {
            place: element.start.place,
        });
    }
    Ok(())
}

// A branch stands directly in AlternateContent and behind no Fallback there; another child of it is in an ignorable namespace.
pub fn try_place(
    element: Element<'_, '_>,
    lent: Texts<'_>,
    spot: Spot,
    marks: &[Mark],
) -> Result<(), Refusal>
    ensures { (behind : Bool) → is_behind spot ≡ is_inside spot && behind → refusal_of result ≡ first (place_faults (is_inside spot) behind (is_ignorable_in (ignorables_of (texts lent.entry) marks.now) (tag_of (texts lent.entry) element.entry).namespace) (tag_of (texts lent.entry) element.entry)) }
{
    let namespace = lent.at(element.start.row.a);
    match (spot, element.is_branch(lent)) {
        (Spot::Outside, false) | (Spot::Inside, true) => Ok(()),
        (Spot::Inside | Spot::BehindFallback, false) if is_marked(namespace, lent, marks) => Ok(()),
        _ => Err(Refusal::Misplaced {
            place: element.start.place,
        }),
    }
}

// A Choice without Requires.
fn lacks_requires(element: Element<'_, '_>, lent: Texts<'_>) -> bool
    ensures { result ≡ is_choice (tag_of (texts lent.entry) element.entry) && not (is_some (requires_of (tag_of (texts lent.entry) element.entry))) }
{
    element.is_choice(lent) && requires_attr(element.attrs, lent).is_none()
}

// The attributes of an element of markup compatibility.
pub fn try_attributes(
    element: Element<'_, '_>,
    lent: Texts<'_>,
    marks: &[Mark],
) -> Result<(), Refusal>
    ensures { refusal_of result ≡ first (attr_faults (in_mc (tag_of (texts lent.entry) element.entry).namespace) (ignorables_of (texts lent.entry) marks.now) (tag_of (texts lent.entry) element.entry)) }
{
    if !is_mc(lent.at(element.start.row.a)) {
        return Ok(());
    }
    if lacks_requires(element, lent) {
        return Err(Refusal::BadAttribute {
            place: element.start.place,
        });
    }
    try_bad(element.attrs, lent, element.is_choice(lent), marks)
}

// What a Choice requires.
pub fn try_choice(
    element: Element<'_, '_>,
    lent: Texts<'_>,
    bindings: &[Bound],
) -> Result<(), Refusal>
    ensures { refusal_of result ≡ first (choice_faults (is_choice (tag_of (texts lent.entry) element.entry)) (bindings_of (texts lent.entry) bindings.now) (tag_of (texts lent.entry) element.entry)) }
{
    if !element.is_choice(lent) {
        return Ok(());
    }
    try_requires(element.attrs, lent, bindings)
}
