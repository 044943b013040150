ghost use Rattle.std.specs.Prelude.{◌≡◌, ◌&&◌, map};
ghost use Rattle.std.specs.Str.{bytes_eq};
ghost use Rattle.file.specs.Form.{text_at};
ghost use Rattle.file.specs.Texts.{texts};
ghost use Rattle.rules.specs.Elements.{decl_of, attr_of};
ghost use Rattle.rules.specs.Order.{has_prefix, has_attr};

use file::texts::Texts;
use record::row::PlacedRow;
use text::bytes::same;

// Whether one of these declarations has the prefix.
pub(crate) fn has_prefix(decls: &[PlacedRow], lent: Texts<'_>, prefix: &[u8]) -> bool
    ensures { result ≡ has_prefix prefix.now (map (decl_of (texts lent.entry)) decls.now) }
{
    decls.iter().any(|x| same(lent.at(x.row.a), prefix))
}

fn is_named(x: PlacedRow, lent: Texts<'_>, namespace: &[u8], name: &[u8]) -> bool
    ensures { result ≡ bytes_eq (text_at (texts lent.entry) x.row.a) namespace.now && bytes_eq (text_at (texts lent.entry) x.row.b) name.now }
{
    same(lent.at(x.row.a), namespace) && same(lent.at(x.row.b), name)
}

// Whether one of these attributes has the name.
pub(crate) fn has_attr(attrs: &[PlacedRow], lent: Texts<'_>, namespace: &[u8], name: &[u8]) -> bool
    ensures { result ≡ has_attr namespace.now name.now (map (attr_of (texts lent.entry)) attrs.now) }
{
    attrs.iter().any(|x| is_named(*x, lent, namespace, name))
}
