ghost use Rattle.std.specs.Prelude.{◌≡◌, ◌++◌, reverse, length, IfOk, Some, OnOk};
ghost use Rattle.file.specs.Form.{text_at};
ghost use Rattle.file.specs.Texts.{texts};
ghost use Rattle.items.specs.Items.{items, prefix_part};
ghost use Rattle.rules.specs.Scope.{bound, named_pairs};
ghost use Rattle.rules.specs.Faults.{process_items};
ghost use Rattle.rules.specs.Faults.{first};
ghost use Rattle.scope.specs.Bounded.{held};
ghost use Rattle.scope.specs.Entries.{bindings_of, ignorables_of, processed_of, space_of};
ghost use Rattle.trial.specs.Answers.{refusal_of};
ghost use Rattle.trial.specs.Pairs.{pair_faults};

use file::texts::Texts;
use items::list::Items;
use items::pair::{is_pair, split};
use record::refusal::Refusal;
use scope::entries::{Bound, Mark, Pair, Pairs, Space};
use scope::find::{is_marked, space_of};

// The namespace of an item of two parts: it is bound and ignorable.
fn pair_space(
    item: &[u8],
    place: u32,
    lent: Texts<'_>,
    bindings: &[Bound],
    marks: &[Mark],
) -> Result<Space, Refusal>
    ensures answer { refusal_of result ≡ first (pair_faults (bindings_of (texts lent.entry) bindings.now) (ignorables_of (texts lent.entry) marks.now) place item.now) }
    ensures space { IfOk result (λ s. bound (bindings_of (texts lent.entry) bindings.now) (prefix_part item.now) ≡ Some (space_of (texts lent.entry) s)) }
{
    if !is_pair(item) {
        return Err(Refusal::BadItem { place });
    }
    let (prefix, _) = split(item);
    let Some(space) = space_of(prefix, lent, bindings) else {
        return Err(Refusal::Unbound { place });
    };
    if !is_marked(space.bytes(lent), lent, marks) {
        return Err(Refusal::NotIgnorable { place });
    }
    Ok(space)
}

// The items of ProcessContent, whose value is this text. Where all pass, the pairs are those before and one for each item.
pub fn process_items(
    text: u32,
    place: u32,
    lent: Texts<'_>,
    bindings: &[Bound],
    marks: &[Mark],
    pairs: &mut Pairs,
) -> Result<(), Refusal>
    ensures answer { refusal_of result ≡ first (process_items (bindings_of (texts lent.entry) bindings.now) (ignorables_of (texts lent.entry) marks.now) place (length (held pairs.old)) (items (text_at (texts lent.entry) text))) }
    ensures entered { OnOk result (processed_of (texts lent.entry) (held pairs.new) ≡ reverse (named_pairs (bindings_of (texts lent.entry) bindings.now) (items (text_at (texts lent.entry) text))) ++ processed_of (texts lent.entry) (held pairs.old)) }
{
    let value = lent.at(text);
    let mut list = Items::of(value);
    while let Some(item) = list.next() {
        let space = pair_space(item, place, lent, bindings, marks)?;
        let (_, local) = split(item);
        let to = value.len() - list.left();
        let from = to - local.len();
        if !pairs.add(Pair {
            space,
            text,
            from,
            to,
        }) {
            return Err(Refusal::ScopeFull { place });
        }
    }
    Ok(())
}
