ghost use Rattle.std.specs.Prelude.{◌≡◌, ◌++◌, map, reverse, length, OnOk};
ghost use Rattle.file.specs.Texts.{texts};
ghost use Rattle.rules.specs.Elements.{attr_of};
ghost use Rattle.rules.specs.Scope.{first_with, is_ignorable, is_process_content, is_must_understand, is_required, items_of, named, named_pairs};
ghost use Rattle.rules.specs.Faults.{first, ignorable_faults, process_faults, must_faults, requires_faults};
ghost use Rattle.scope.specs.Bounded.{held};
ghost use Rattle.scope.specs.Entries.{bindings_of, ignorables_of, processed_of};
ghost use Rattle.trial.specs.Answers.{refusal_of};

use attrs::tried::{list_attr, requires_attr};
use file::texts::Texts;
use items::list::Items;
use record::refusal::Refusal;
use record::row::PlacedRow;
use scope::entries::{Bound, Mark, Marks, Pairs};
use text::names::McAttribute;
use trial::ignorable::ignorable_items;
use trial::prefix::prefix_items;
use trial::process::process_items;

// Ignorable, if the element has it; where it passes, its items are marked.
pub fn try_ignorable(
    attrs: &[PlacedRow],
    lent: Texts<'_>,
    bindings: &[Bound],
    marks: &mut Marks,
) -> Result<(), Refusal>
    ensures answer { refusal_of result ≡ first (ignorable_faults (bindings_of (texts lent.entry) bindings.now) (length (held marks.old)) (first_with is_ignorable (map (attr_of (texts lent.entry)) attrs.now))) }
    ensures marked { OnOk result (ignorables_of (texts lent.entry) (held marks.new) ≡ reverse (named (bindings_of (texts lent.entry) bindings.now) (items_of (first_with is_ignorable (map (attr_of (texts lent.entry)) attrs.now)))) ++ ignorables_of (texts lent.entry) (held marks.old)) }
{
    let Some(x) = list_attr(attrs, lent, McAttribute::Ignorable) else {
        return Ok(());
    };
    ignorable_items(lent.at(x.row.c), x.place, lent, bindings, marks)
}

// ProcessContent, if the element has it; where it passes, its items are paired.
pub fn try_process(
    attrs: &[PlacedRow],
    lent: Texts<'_>,
    bindings: &[Bound],
    marks: &[Mark],
    pairs: &mut Pairs,
) -> Result<(), Refusal>
    ensures answer { refusal_of result ≡ first (process_faults (bindings_of (texts lent.entry) bindings.now) (ignorables_of (texts lent.entry) marks.now) (length (held pairs.old)) (first_with is_process_content (map (attr_of (texts lent.entry)) attrs.now))) }
    ensures entered { OnOk result (processed_of (texts lent.entry) (held pairs.new) ≡ reverse (named_pairs (bindings_of (texts lent.entry) bindings.now) (items_of (first_with is_process_content (map (attr_of (texts lent.entry)) attrs.now)))) ++ processed_of (texts lent.entry) (held pairs.old)) }
{
    let Some(x) = list_attr(attrs, lent, McAttribute::ProcessContent) else {
        return Ok(());
    };
    process_items(x.row.c, x.place, lent, bindings, marks, pairs)
}

// MustUnderstand, if the element has it.
pub fn try_must(attrs: &[PlacedRow], lent: Texts<'_>, bindings: &[Bound]) -> Result<(), Refusal>
    ensures { refusal_of result ≡ first (must_faults (bindings_of (texts lent.entry) bindings.now) (first_with is_must_understand (map (attr_of (texts lent.entry)) attrs.now))) }
{
    let Some(x) = list_attr(attrs, lent, McAttribute::MustUnderstand) else {
        return Ok(());
    };
    prefix_items(lent.at(x.row.c), x.place, lent, bindings)
}

// Requires, if the element has it.
pub fn try_requires(attrs: &[PlacedRow], lent: Texts<'_>, bindings: &[Bound]) -> Result<(), Refusal>
    ensures { refusal_of result ≡ first (requires_faults (bindings_of (texts lent.entry) bindings.now) (first_with is_required (map (attr_of (texts lent.entry)) attrs.now))) }
{
    let Some(x) = requires_attr(attrs, lent) else {
        return Ok(());
    };
    let value = lent.at(x.row.c);
    if Items::of(value).next().is_none() {
        return Err(Refusal::BadItem { place: x.place });
    }
    prefix_items(value, x.place, lent, bindings)
}
