ghost use Rattle.std.specs.Prelude.{◌≡◌, not, ◌&&◌, map, is_some};
ghost use Rattle.std.specs.Option.{option_map};
ghost use Rattle.text.specs.Names.{in_mc, in_xml, is_inherited, attribute_named};
ghost use Rattle.file.specs.Form.{text_at};
ghost use Rattle.file.specs.Texts.{texts};
ghost use Rattle.rules.specs.Elements.{Attr, attr_of};
ghost use Rattle.rules.specs.Scope.{first_with, is_required, mc_attribute};
ghost use Rattle.rules.specs.Faults.{first, attr_name_faults, bad_attrs, is_bad_attr, xml_faults};
ghost use Rattle.scope.specs.Entries.{ignorables_of};
ghost use Rattle.trial.specs.Answers.{refusal_of};
ghost use Rattle.attrs.specs.Wanted.{is_wanted};

use crate::first::first_attr;
use file::texts::Texts;
use record::refusal::Refusal;
use record::row::PlacedRow;
use scope::entries::Mark;
use scope::find::is_marked;
use text::names::{McAttribute, is_inherited, is_mc, is_requires, is_xml, mc_attribute};

// The attribute of markup compatibility of this name.
pub fn is_list_attr(x: PlacedRow, lent: Texts<'_>, attribute: McAttribute) -> bool
    ensures { result ≡ is_wanted attribute (mc_attribute (attr_of (texts lent.entry) x)) }
{
    is_mc(lent.at(x.row.a)) && mc_attribute(lent.at(x.row.b)) == Some(attribute)
}

// Requires, which has no namespace.
fn is_requires_attr(x: PlacedRow, lent: Texts<'_>) -> bool
    ensures { result ≡ is_required (attr_of (texts lent.entry) x) }
{
    lent.at(x.row.a).is_empty() && is_requires(lent.at(x.row.b))
}

// An attribute in markup compatibility that it does not have.
fn is_unknown_attr(x: PlacedRow, lent: Texts<'_>) -> bool
    ensures { result ≡ in_mc (text_at (texts lent.entry) x.row.a) && not (is_some (attribute_named (text_at (texts lent.entry) x.row.b))) }
{
    is_mc(lent.at(x.row.a)) && mc_attribute(lent.at(x.row.b)).is_none()
}

// xml:base, xml:lang or xml:space.
fn is_inherited_attr(x: PlacedRow, lent: Texts<'_>) -> bool
    ensures { result ≡ in_xml (text_at (texts lent.entry) x.row.a) && is_inherited (text_at (texts lent.entry) x.row.b) }
{
    is_xml(lent.at(x.row.a)) && is_inherited(lent.at(x.row.b))
}

// An attribute that an element of markup compatibility may not have.
fn is_bad_attr(x: PlacedRow, lent: Texts<'_>, choice: bool, marks: &[Mark]) -> bool
    ensures { result ≡ is_bad_attr (ignorables_of (texts lent.entry) marks.now) choice (attr_of (texts lent.entry) x) }
{
    let namespace = lent.at(x.row.a);
    is_xml(namespace)
        || namespace.is_empty() && !(choice && is_requires(lent.at(x.row.b)))
        || !namespace.is_empty() && !is_mc(namespace) && !is_marked(namespace, lent, marks)
}

// The element's attribute of markup compatibility of this name, if it has one.
pub fn list_attr(attrs: &[PlacedRow], lent: Texts<'_>, attribute: McAttribute) -> Option<PlacedRow>
    ensures { option_map (attr_of (texts lent.entry)) result ≡ first_with (λ (x : Attr). is_wanted attribute (mc_attribute x)) (map (attr_of (texts lent.entry)) attrs.now) }
{
    first_attr(attrs, |x| is_list_attr(x, lent, attribute))
}

pub fn requires_attr(attrs: &[PlacedRow], lent: Texts<'_>) -> Option<PlacedRow>
    ensures { option_map (attr_of (texts lent.entry)) result ≡ first_with is_required (map (attr_of (texts lent.entry)) attrs.now) }
{
    first_attr(attrs, |x| is_requires_attr(x, lent))
}

// Attributes in markup compatibility are ones that it has.
// Kept: this trial and the next two each match on what they found. A helper would take the refusal too as a closure, and its contract
// would have to say what that answers, which is longer than the matches.
pub fn try_names(attrs: &[PlacedRow], lent: Texts<'_>) -> Result<(), Refusal>
    ensures { refusal_of result ≡ first (attr_name_faults (map (attr_of (texts lent.entry)) attrs.now)) }
{
    match first_attr(attrs, |x| is_unknown_attr(x, lent)) {
        Some(x) => Err(Refusal::UnknownName { place: x.place }),
        None => Ok(()),
    }
}

// Attributes of an element of markup compatibility.
pub fn try_bad(
    attrs: &[PlacedRow],
    lent: Texts<'_>,
    choice: bool,
    marks: &[Mark],
) -> Result<(), Refusal>
    ensures { refusal_of result ≡ first (bad_attrs (ignorables_of (texts lent.entry) marks.now) choice (map (attr_of (texts lent.entry)) attrs.now)) }
{
    match first_attr(attrs, |x| is_bad_attr(x, lent, choice, marks)) {
        Some(x) => Err(Refusal::BadAttribute { place: x.place }),
        None => Ok(()),
    }
}

// Attributes of an element that may be unwrapped.
pub fn try_xml(attrs: &[PlacedRow], lent: Texts<'_>, unwrapped: bool) -> Result<(), Refusal>
    ensures { refusal_of result ≡ first (xml_faults unwrapped (map (attr_of (texts lent.entry)) attrs.now)) }
{
    match first_attr(attrs, |x| unwrapped && is_inherited_attr(x, lent)) {
        Some(x) => Err(Refusal::XmlAttribute { place: x.place }),
        None => Ok(()),
    }
}
