ghost use Rattle.std.specs.Prelude.{◌≡◌, ◌&&◌};
ghost use Rattle.std.specs.Str.{bytes_eq};
ghost use Rattle.file.specs.Form.{text_at};
ghost use Rattle.file.specs.Texts.{texts};
ghost use Rattle.scope.specs.Entries.{space_of, local_of};

use crate::bounded::Bounded;
use crate::search::Keyed;
use file::texts::Texts;
use text::bytes::same;
use text::names::XML;

// The lists in scope have at most this many entries.
pub const ENTRIES: usize = 128;

pub type Bindings = Bounded<Bound, ENTRIES>;

pub type Marks = Bounded<Mark, ENTRIES>;

pub type Pairs = Bounded<Pair, ENTRIES>;

// A namespace in scope: a text of the record, or that of the prefix `xml`, which need not be among the texts.
#[derive(Clone, Copy)]
pub enum Space {
    Text(u32),
    Xml,
}

impl Space {
    pub fn bytes<'a>(self, lent: Texts<'a>) -> &'a [u8]
        ensures { result.now ≡ space_of (texts lent.entry) self }
    {
        match self {
            Space::Text(n) => lent.at(n),
            Space::Xml => XML,
        }
    }
}

// A declaration in scope.
#[derive(Clone, Copy)]
pub struct Bound {
    pub prefix: u32,
    pub space: u32,
}

// An item of Ignorable in scope.
#[derive(Clone, Copy)]
pub struct Mark {
    pub space: Space,
}

// An item of ProcessContent in scope; its local name is a part of the attribute's value.
#[derive(Clone, Copy)]
pub struct Pair {
    pub space: Space,
    pub text: u32,
    pub from: usize,
    pub to: usize,
}

impl Pair {
    pub fn local<'a>(self, lent: Texts<'a>) -> &'a [u8]
        ensures { result.now ≡ local_of (texts lent.entry) self }
    {
        let value = lent.at(self.text);
        let to = self.to.min(value.len());
        let from = self.from.min(to);
        &value[from..to]
    }
}

// A prefix or a namespace that is sought, by its bytes.
#[derive(Clone, Copy)]
pub struct Named<'n, 'a> {
    pub name: &'n [u8],
    pub lent: Texts<'a>,
}

// A namespace and a local name that are sought, by their bytes.
#[derive(Clone, Copy)]
pub struct NamedPair<'n, 'l, 'a> {
    pub namespace: &'n [u8],
    pub local: &'l [u8],
    pub lent: Texts<'a>,
}

impl<'n, 'a> Keyed<Named<'n, 'a>> for Bound {
    ghost fits = { λ b key. bytes_eq (text_at (texts key.lent) b.prefix) key.name.now };

    fn has(&self, key: &Named<'n, 'a>) -> bool {
        same(key.lent.at(self.prefix), key.name)
    }
}

impl<'n, 'a> Keyed<Named<'n, 'a>> for Mark {
    ghost fits = { λ m key. bytes_eq (space_of (texts key.lent) m.space) key.name.now };

    fn has(&self, key: &Named<'n, 'a>) -> bool {
        same(self.space.bytes(key.lent), key.name)
    }
}

impl<'n, 'l, 'a> Keyed<NamedPair<'n, 'l, 'a>> for Pair {
    ghost fits = { λ p key. bytes_eq (space_of (texts key.lent) p.space) key.namespace.now && bytes_eq (local_of (texts key.lent) p) key.local.now };

    fn has(&self, key: &NamedPair<'n, 'l, 'a>) -> bool {
        same(self.space.bytes(key.lent), key.namespace) && same(self.local(key.lent), key.local)
    }
}
