ghost use Rattle.std.specs.Prelude.{◌≡◌, IfOk, Some};
ghost use Rattle.file.specs.Form.{text_at};
ghost use Rattle.file.specs.Texts.{texts};
ghost use Rattle.items.specs.Items.{items};
ghost use Rattle.rules.specs.Scope.{bound};
ghost use Rattle.rules.specs.Faults.{prefix_item, prefix_items};
ghost use Rattle.rules.specs.Faults.{first};
ghost use Rattle.scope.specs.Entries.{bindings_of, space_of};
ghost use Rattle.trial.specs.Answers.{refusal_of};

use file::texts::Texts;
use items::list::Items;
use items::pair::has_colon;
use record::refusal::Refusal;
use scope::entries::{Bound, Space};
use scope::find::space_of;

// The namespace of an item that is a prefix.
pub fn prefix_item(
    item: &[u8],
    place: u32,
    lent: Texts<'_>,
    bindings: &[Bound],
) -> Result<Space, Refusal>
    ensures answer { refusal_of result ≡ first (prefix_item (bindings_of (texts lent.entry) bindings.now) place item.now) }
    ensures space { IfOk result (λ s. bound (bindings_of (texts lent.entry) bindings.now) item.now ≡ Some (space_of (texts lent.entry) s)) }
{
    if has_colon(item) {
        return Err(Refusal::BadItem { place });
    }
    let Some(space) = space_of(item, lent, bindings) else {
        return Err(Refusal::Unbound { place });
    };
    Ok(space)
}

// The items of MustUnderstand or Requires, which make no entries.
pub fn prefix_items(
    value: &[u8],
    place: u32,
    lent: Texts<'_>,
    bindings: &[Bound],
) -> Result<(), Refusal>
    ensures { refusal_of result ≡ first (prefix_items (bindings_of (texts lent.entry) bindings.now) place (items value.now)) }
{
    for item in Items::of(value) {
        prefix_item(item, place, lent, bindings)?;
    }
    Ok(())
}
