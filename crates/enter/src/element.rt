ghost use Rattle.std.specs.Prelude.{◌≡◌, Bool, ◌&&◌, OnOk};
ghost use Rattle.file.specs.Texts.{texts};
ghost use Rattle.knowledge.specs.Understood.{Knows, is_understood};
ghost use Rattle.rules.specs.Scope.{scope_with};
ghost use Rattle.rules.specs.Steps.{is_unwrapped};
ghost use Rattle.rules.specs.Faults.{first, element_faults};
ghost use Rattle.trial.specs.Answers.{refusal_of};
ghost use Rattle.judge.specs.Tags.{tag_of};
ghost use Rattle.judge.specs.Spots.{is_inside, is_behind};
ghost use Rattle.enter.specs.Scopes.{scope_of};
ghost use Rattle.enter.specs.Trials.{list_faults, rest_faults};

use crate::in_scope::InScope;
use attrs::tried::{try_names, try_xml};
use file::texts::Texts;
use judge::declare::declare;
use judge::element::Element;
use judge::lists::{try_ignorable, try_must, try_process};
use judge::place::{Spot, try_attributes, try_choice, try_place, try_start};
use record::refusal::Refusal;
use scope::find::{is_marked, is_paired};
use text::names::is_mc;

// The declarations and lists of an element; where all pass, their entries are in scope.
fn enter(element: Element<'_, '_>, lent: Texts<'_>, scope: &mut InScope) -> Result<(), Refusal>
    ensures answer { refusal_of result ≡ first (list_faults (scope_of (texts lent.entry) scope.old) (tag_of (texts lent.entry) element.entry)) }
    ensures entered { OnOk result (scope_of (texts lent.entry) scope.new ≡ scope_with (tag_of (texts lent.entry) element.entry) (scope_of (texts lent.entry) scope.old)) }
{
    let attrs = element.attrs;
    declare(element.decls, element.start.place, &mut scope.bindings)?;
    try_start(element, lent)?;
    try_names(attrs, lent)?;
    let bindings = scope.bindings.entries();
    try_ignorable(attrs, lent, bindings, &mut scope.marks)?;
    try_process(
        attrs,
        lent,
        bindings,
        scope.marks.entries(),
        &mut scope.pairs,
    )?;
    try_must(attrs, lent, bindings)
}

// Whether an element is unwrapped, by what is in scope at it.
fn is_unwrapped(
    element: Element<'_, '_>,
    lent: Texts<'_>,
    understood: bool,
    scope: &InScope,
) -> bool
    ensures { (knows : Knows) → understood ≡ is_understood knows (tag_of (texts lent.entry) element.entry).namespace → result ≡ is_unwrapped knows (scope_of (texts lent.entry) scope.now) (tag_of (texts lent.entry) element.entry) }
{
    let namespace = lent.at(element.start.row.a);
    !understood
        && !is_mc(namespace)
        && !namespace.is_empty()
        && is_marked(namespace, lent, scope.marks())
        && is_paired(namespace, lent.at(element.start.row.b), lent, scope.pairs())
}

// The place of an element and its attributes, by what is in scope at it.
fn try_rest(
    element: Element<'_, '_>,
    lent: Texts<'_>,
    unwrapped: bool,
    spot: Spot,
    scope: &InScope,
) -> Result<(), Refusal>
    ensures { (behind : Bool) → is_behind spot ≡ is_inside spot && behind → refusal_of result ≡ first (rest_faults unwrapped (scope_of (texts lent.entry) scope.now) (is_inside spot) behind (tag_of (texts lent.entry) element.entry)) }
{
    try_place(element, lent, spot, scope.marks())?;
    try_attributes(element, lent, scope.marks())?;
    try_choice(element, lent, scope.bindings())?;
    try_xml(element.attrs, lent, unwrapped)
}

// An element outside extension elements, whose namespace is `understood` or not. Where it passes, its entries are in scope.
pub fn try_element(
    element: Element<'_, '_>,
    lent: Texts<'_>,
    understood: bool,
    spot: Spot,
    scope: &mut InScope,
) -> Result<(), Refusal>
    ensures answer { (knows : Knows) (behind : Bool) → understood ≡ is_understood knows (tag_of (texts lent.entry) element.entry).namespace → is_behind spot ≡ is_inside spot && behind → refusal_of result ≡ first (element_faults knows (scope_of (texts lent.entry) scope.old) (is_inside spot) behind (tag_of (texts lent.entry) element.entry)) }
    ensures entered { OnOk result (scope_of (texts lent.entry) scope.new ≡ scope_with (tag_of (texts lent.entry) element.entry) (scope_of (texts lent.entry) scope.old)) }
{
    enter(element, lent, scope)?;
    let unwrapped = is_unwrapped(element, lent, understood, scope);
    try_rest(element, lent, unwrapped, spot, scope)
}
