ghost use Rattle.std.specs.Prelude.{◌≡◌};
ghost use Rattle.file.specs.Files.{held};
ghost use Rattle.card.specs.Cards.{IsRight, extensions, on_list};

use crate::kind::CardKind;
use file::checked::File;
use text::bytes::same;

// The extension list of a card: the names of its rows 23. Card and record have texts of their own, so names are compared by bytes.
#[derive(Clone, Copy)]
pub struct Extensions<'a> {
    pub(crate) card: File<'a>,
    ghost right: { IsRight (held card) },
}

impl<'a> Extensions<'a> {
    // Whether an element with this namespace and local name is on the list.
    // Asked for each element; in line, its loop over the rows would share the caller's registers and take a third longer.
    #[inline(never)]
    pub fn has(&self, namespace: &[u8], local: &[u8]) -> bool
        ensures { result ≡ on_list (extensions (held self.now.card)) namespace.now local.now }
    {
        let texts = self.card.texts();
        self.card.rows().any(|row| {
            row.kind == u32::from(CardKind::Extension)
                && same(texts.at(row.a), namespace)
                && same(texts.at(row.b), local)
        })
    }
}
