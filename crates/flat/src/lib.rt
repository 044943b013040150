// A sheet with an entry for each row.
#![tactic(auto)]

ghost use Rattle.roll.specs.Rolls.{items};
ghost use Rattle.sheet.specs.Tails.{Drafted};

use record::row::PlacedRow;
use roll::Roll;
use sheet::tail::Tail;

pub mod calls;

// The rows as they came, of which the first `sealed` are sealed and the rest are the draft.
#[derive(Drop)]
pub struct FlatSheet<'a> {
    roll: Roll<'a, PlacedRow>,
    sealed: usize,
    tail: Tail,
    ghost drafted: { Drafted sealed tail (items roll) },
}
