ghost use Rattle.std.specs.Prelude.{◌≡◌, suc, ◌++◌, reverse, length, OnOk};
ghost use Rattle.file.specs.Texts.{texts};
ghost use Rattle.items.specs.Items.{items};
ghost use Rattle.rules.specs.Scope.{bound, cons_some, named};
ghost use Rattle.rules.specs.Faults.{ignorable_item, ignorable_items};
ghost use Rattle.rules.specs.Faults.{first};
ghost use Rattle.scope.specs.Bounded.{held};
ghost use Rattle.scope.specs.Entries.{bindings_of, ignorables_of};
ghost use Rattle.trial.specs.Answers.{refusal_of};

use crate::prefix::prefix_item;
use file::texts::Texts;
use items::list::Items;
use record::refusal::Refusal;
use scope::entries::{Bound, Mark, Marks};
use text::names::is_mc;

// One item of Ignorable; if it passes it makes an entry.
fn ignorable_item(
    item: &[u8],
    place: u32,
    lent: Texts<'_>,
    bindings: &[Bound],
    marks: &mut Marks,
) -> Result<(), Refusal>
    ensures answer { refusal_of result ≡ first (ignorable_item (bindings_of (texts lent.entry) bindings.now) place (length (held marks.old)) item.now) }
    ensures marked { OnOk result (ignorables_of (texts lent.entry) (held marks.new) ≡ cons_some (bound (bindings_of (texts lent.entry) bindings.now) item.now) (ignorables_of (texts lent.entry) (held marks.old))) }
    ensures counted { OnOk result (length (held marks.new) ≡ suc (length (held marks.old))) }
{
    let space = prefix_item(item, place, lent, bindings)?;
    if is_mc(space.bytes(lent)) {
        return Err(Refusal::NotIgnorable { place });
    }
    if !marks.add(Mark { space }) {
        return Err(Refusal::ScopeFull { place });
    }
    Ok(())
}

// The items of Ignorable. Where all pass, the marks are those before and one for each item.
pub fn ignorable_items(
    value: &[u8],
    place: u32,
    lent: Texts<'_>,
    bindings: &[Bound],
    marks: &mut Marks,
) -> Result<(), Refusal>
    ensures answer { refusal_of result ≡ first (ignorable_items (bindings_of (texts lent.entry) bindings.now) place (length (held marks.old)) (items value.now)) }
    ensures marked { OnOk result (ignorables_of (texts lent.entry) (held marks.new) ≡ reverse (named (bindings_of (texts lent.entry) bindings.now) (items value.now)) ++ ignorables_of (texts lent.entry) (held marks.old)) }
{
    for item in Items::of(value) {
        ignorable_item(item, place, lent, bindings, marks)?;
    }
    Ok(())
}
