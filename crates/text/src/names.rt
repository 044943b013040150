ghost use Rattle.std.specs.Prelude.{◌≡◌};
ghost use Rattle.text.specs.Names.{in_mc, in_xml, is_xml_prefix, element_named, attribute_named, is_requires, is_inherited};

use crate::bytes::same;

// The namespace of markup compatibility.
pub const MC: &[u8] = b"http://schemas.openxmlformats.org/markup-compatibility/2006";

// The namespace that the prefix `xml` is bound to everywhere.
pub const XML: &[u8] = b"http://www.w3.org/XML/1998/namespace";

pub const XML_PREFIX: &[u8] = b"xml";

pub const ALTERNATE_CONTENT: &[u8] = b"AlternateContent";

pub const CHOICE: &[u8] = b"Choice";

pub const FALLBACK: &[u8] = b"Fallback";

pub const IGNORABLE: &[u8] = b"Ignorable";

pub const PROCESS_CONTENT: &[u8] = b"ProcessContent";

pub const MUST_UNDERSTAND: &[u8] = b"MustUnderstand";

// The attribute without namespace that every Choice has.
pub const REQUIRES: &[u8] = b"Requires";

// The elements of markup compatibility.
#[derive(Clone, Copy, PartialEq, Eq, Debug)]
pub enum McElement {
    AlternateContent,
    Choice,
    Fallback,
}

// The attributes of markup compatibility.
#[derive(Clone, Copy, PartialEq, Eq, Debug)]
pub enum McAttribute {
    Ignorable,
    ProcessContent,
    MustUnderstand,
}

#[tactic(auto, unfolding(crate::specs::Names::in_mc, crate::specs::Names::mc_namespace))]
pub fn is_mc(namespace: &[u8]) -> bool
    ensures { result ≡ in_mc namespace.now }
{
    same(namespace, MC)
}

#[tactic(auto, unfolding(crate::specs::Names::in_xml, crate::specs::Names::xml_namespace))]
pub fn is_xml(namespace: &[u8]) -> bool
    ensures { result ≡ in_xml namespace.now }
{
    same(namespace, XML)
}

#[tactic(auto, unfolding(crate::specs::Names::is_xml_prefix))]
pub fn is_xml_prefix(prefix: &[u8]) -> bool
    ensures { result ≡ is_xml_prefix prefix.now }
{
    same(prefix, XML_PREFIX)
}

#[tactic(auto, unfolding(crate::specs::Names::is_requires))]
pub fn is_requires(local: &[u8]) -> bool
    ensures { result ≡ is_requires local.now }
{
    same(local, REQUIRES)
}

// The element of markup compatibility with this local name.
// Kept: no TryFrom, here and below, since of another name there is nothing to tell, and callers want an Option.
#[tactic(auto, unfolding(crate::specs::Names::element_named))]
pub fn mc_element(local: &[u8]) -> Option<McElement>
    ensures { result ≡ element_named local.now }
{
    if same(local, ALTERNATE_CONTENT) {
        Some(McElement::AlternateContent)
    } else if same(local, CHOICE) {
        Some(McElement::Choice)
    } else if same(local, FALLBACK) {
        Some(McElement::Fallback)
    } else {
        None
    }
}

// The attribute of markup compatibility with this local name.
#[tactic(auto, unfolding(crate::specs::Names::attribute_named))]
pub fn mc_attribute(local: &[u8]) -> Option<McAttribute>
    ensures { result ≡ attribute_named local.now }
{
    if same(local, IGNORABLE) {
        Some(McAttribute::Ignorable)
    } else if same(local, PROCESS_CONTENT) {
        Some(McAttribute::ProcessContent)
    } else if same(local, MUST_UNDERSTAND) {
        Some(McAttribute::MustUnderstand)
    } else {
        None
    }
}

// Whether an attribute of the XML namespace holds for what is inside its element too.
#[tactic(auto, unfolding(crate::specs::Names::is_inherited))]
pub fn is_inherited(local: &[u8]) -> bool
    ensures { result ≡ is_inherited local.now }
{
    same(local, b"base") || same(local, b"lang") || same(local, b"space")
}
