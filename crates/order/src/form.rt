ghost use Rattle.std.specs.Prelude.{◌≡◌, is_some, IfSome, Some};
ghost use Rattle.record.specs.Rows.{kind_of};
ghost use Rattle.file.specs.Texts.{texts};
ghost use Rattle.rules.specs.Order.{is_shaped, is_well_formed, is_forbidden_decl};

use file::texts::Texts;
use record::row::{Kind, Row};
use text::names::is_xml_prefix;

// A number shown as 0 in the form of its kind is 0, and a local name is not.
fn is_shaped(kind: Kind, row: Row) -> bool
    ensures { result ≡ is_shaped (Some kind) row }
{
    match kind {
        Kind::Start => row.b != 0 && row.c == 0,
        Kind::Declaration => row.c == 0,
        Kind::Attribute => row.b != 0,
        Kind::Text => row.b == 0 && row.c == 0,
        Kind::End => row.a == 0 && row.b == 0 && row.c == 0,
    }
}

// The kind of a row that is well formed.
pub(crate) fn well_formed(lent: Texts<'_>, row: Row) -> Option<Kind>
    ensures formed { is_some result ≡ is_well_formed (texts lent.entry) row }
    ensures kind { IfSome result (λ k. kind_of row.kind ≡ Some k) }
{
    let kind = Kind::try_from(row.kind).ok()?;
    let formed = is_shaped(kind, row) && lent.has(row.a) && lent.has(row.b) && lent.has(row.c);
    formed.then_some(kind)
}

// The prefix `xml`, or a prefix other than the default for no namespace.
#[tactic(auto, using(items::proofs::Fronts::empty_length), unfolding(rules::specs::Order::is_forbidden_decl))]
pub(crate) fn is_forbidden_decl(prefix: &[u8], namespace: &[u8]) -> bool
    ensures { result ≡ is_forbidden_decl prefix.now namespace.now }
{
    is_xml_prefix(prefix) || !prefix.is_empty() && namespace.is_empty()
}
