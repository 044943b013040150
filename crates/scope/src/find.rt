ghost use Rattle.std.specs.Prelude.{◌≡◌};
ghost use Rattle.std.specs.Option.{option_map};
ghost use Rattle.file.specs.Texts.{texts};
ghost use Rattle.rules.specs.Scope.{bound, is_ignorable_in, is_processed_in};
ghost use Rattle.scope.specs.Entries.{space_of, bindings_of, ignorables_of, processed_of};

use crate::entries::{Bound, Mark, Named, NamedPair, Pair, Space};
use crate::search::newest;
use file::texts::Texts;
use text::names::is_xml_prefix;

// The namespace that a prefix is bound to, the nearest declaration first; `xml` needs none.
pub fn space_of(prefix: &[u8], lent: Texts<'_>, bindings: &[Bound]) -> Option<Space>
    ensures { option_map (space_of (texts lent.entry)) result ≡ bound (bindings_of (texts lent.entry) bindings.now) prefix.now }
{
    if is_xml_prefix(prefix) {
        return Some(Space::Xml);
    }
    let binding = newest(bindings, &Named { name: prefix, lent })?;
    Some(Space::Text(binding.space))
}

// Whether a namespace is ignorable.
pub fn is_marked(namespace: &[u8], lent: Texts<'_>, marks: &[Mark]) -> bool
    ensures { result ≡ is_ignorable_in (ignorables_of (texts lent.entry) marks.now) namespace.now }
{
    let key = Named {
        name: namespace,
        lent,
    };
    newest(marks, &key).is_some()
}

// Whether ProcessContent names an element.
pub fn is_paired(namespace: &[u8], local: &[u8], lent: Texts<'_>, pairs: &[Pair]) -> bool
    ensures { result ≡ is_processed_in (processed_of (texts lent.entry) pairs.now) namespace.now local.now }
{
    let key = NamedPair {
        namespace,
        local,
        lent,
    };
    newest(pairs, &key).is_some()
}
