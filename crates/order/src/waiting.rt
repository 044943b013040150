ghost use Rattle.std.specs.Prelude.{◌≡◌, true, false, List, [], ◌∷◌, length, nat_le};
ghost use Rattle.text.specs.Bytes.{Bytes};
ghost use Rattle.rules.specs.Elements.{Tag, tag, start_of, decl_of, attr_of, with_decl, with_attr, on_top};
ghost use Rattle.file.specs.Texts.{texts};
ghost use Rattle.rules.specs.Order.{on_tag, has_no_attrs, has_prefix, has_attr};
ghost use Rattle.order.specs.Waits.{waiting_of, waiting_tag};

use crate::repeat::{has_attr, has_prefix};
use file::texts::Texts;
use judge::element::Element;
use record::row::{PlacedRow, Row};
use scope::bounded::Bounded;

// An element has at most this many declarations, and this many attributes.
pub const EACH: usize = 32;

// What fills the memory before a row comes.
const BLANK: PlacedRow = PlacedRow {
    place: 0,
    row: Row {
        kind: 0,
        a: 0,
        b: 0,
        c: 0,
    },
};

// The element that waits to be judged, if one does.
#[derive(Drop)]
pub struct Waiting {
    start: Option<PlacedRow>,
    decls: Bounded<PlacedRow, EACH>,
    attrs: Bounded<PlacedRow, EACH>,
}

impl Waiting {
    // No element waits.
    pub(crate) fn none() -> Waiting
        ensures { (ts : List Bytes) → waiting_of ts result ≡ [] }
    {
        Waiting {
            start: None,
            decls: Bounded::new(BLANK),
            attrs: Bounded::new(BLANK),
        }
    }

    pub(crate) fn element(&self) -> Option<Element<'_, '_>>
        ensures { (ts : List Bytes) → waiting_of ts self.now ≡ waiting_tag ts result }
    {
        Some(Element {
            start: self.start?,
            decls: self.decls.entries(),
            attrs: self.attrs.entries(),
        })
    }

    // A start takes the place of what waited.
    pub(crate) fn begin(&mut self, start: PlacedRow)
        ensures { (ts : List Bytes) → waiting_of ts self.new ≡ tag (start_of ts start) ∷ [] }
    {
        self.start = Some(start);
        self.decls.cut(0);
        self.attrs.cut(0);
    }

    // Kept: here and below a method for each of the two lists. One for both is no plainer: each is one line, and its clause speaks of
    // another part of the tag.

    // A declaration of the element that waits.
    pub(crate) fn add_decl(&mut self, row: PlacedRow)
        ensures { (ts : List Bytes) → on_tag (λ (t : Tag). nat_le 32 (length t.decls)) (waiting_of ts self.old) ≡ false → waiting_of ts self.new ≡ on_top (with_decl (decl_of ts row)) (waiting_of ts self.old) }
    {
        let _ = self.decls.add(row);
    }

    // An attribute of the element that waits.
    pub(crate) fn add_attr(&mut self, row: PlacedRow)
        ensures { (ts : List Bytes) → on_tag (λ (t : Tag). nat_le 32 (length t.attrs)) (waiting_of ts self.old) ≡ false → waiting_of ts self.new ≡ on_top (with_attr (attr_of ts row)) (waiting_of ts self.old) }
    {
        let _ = self.attrs.add(row);
    }

    // No element waits any more.
    pub(crate) fn clear(&mut self)
        ensures { (ts : List Bytes) → waiting_of ts self.new ≡ [] }
    {
        self.start = None;
    }

    pub(crate) fn is_present(&self) -> bool
        ensures { (ts : List Bytes) → result ≡ on_tag (λ (t : Tag). true) (waiting_of ts self.now) }
    {
        self.start.is_some()
    }

    // Whether an element waits that has no attribute yet.
    pub(crate) fn lacks_attrs(&self) -> bool
        ensures { (ts : List Bytes) → result ≡ on_tag (λ (t : Tag). has_no_attrs t.attrs) (waiting_of ts self.now) }
    {
        self.is_present() && self.attrs.len() == 0
    }

    // Whether an element waits that has this prefix.
    pub(crate) fn repeats_prefix(&self, lent: Texts<'_>, prefix: &[u8]) -> bool
        ensures { result ≡ on_tag (λ (t : Tag). has_prefix prefix.now t.decls) (waiting_of (texts lent.entry) self.now) }
    {
        self.is_present() && has_prefix(self.decls.entries(), lent, prefix)
    }

    // Whether an element waits that has an attribute of this name.
    pub(crate) fn repeats_attr(&self, lent: Texts<'_>, namespace: &[u8], name: &[u8]) -> bool
        ensures { result ≡ on_tag (λ (t : Tag). has_attr namespace.now name.now t.attrs) (waiting_of (texts lent.entry) self.now) }
    {
        self.is_present() && has_attr(self.attrs.entries(), lent, namespace, name)
    }

    // Whether an element waits that may have no more declarations.
    pub(crate) fn is_full_of_decls(&self) -> bool
        ensures { (ts : List Bytes) → result ≡ on_tag (λ (t : Tag). nat_le 32 (length t.decls)) (waiting_of ts self.now) }
    {
        self.is_present() && self.decls.is_full()
    }

    // Whether an element waits that may have no more attributes.
    pub(crate) fn is_full_of_attrs(&self) -> bool
        ensures { (ts : List Bytes) → result ≡ on_tag (λ (t : Tag). nat_le 32 (length t.attrs)) (waiting_of ts self.now) }
    {
        self.is_present() && self.attrs.is_full()
    }
}
