// A sheet that keeps no entry for an end.
#![tactic(auto)]

ghost use Rattle.std.specs.Prelude.{◌≡◌, ◌^◌, ◌<◌, ◌≤◌, length, take, None};
ghost use Rattle.roll.specs.Rolls.{items, slot_count};
ghost use Rattle.sheet.specs.Tails.{Drafted};
ghost use Rattle.outline.specs.Entries.{rows_of};
ghost use Rattle.outline.specs.Sound.{Sound};

use crate::entry::Entry;
use roll::Roll;
use sheet::tail::Tail;

pub mod calls;
pub mod entry;
mod reading;

// Of the entries the first `sealed` are sealed; of the rows that they stand for, `count`, out of `total`.
#[derive(Drop)]
pub struct Outline<'a> {
    roll: Roll<'a, Entry>,
    sealed: usize,
    count: usize,
    total: usize,
    top: Option<usize>,
    tail: Tail,
    ghost few: { slot_count roll < 2 ^ 63 },
    ghost within: { sealed ≤ length (items roll) },
    // of all entries; then the same of the sealed ones, to which a drop goes back
    ghost sound: { Sound sealed (items roll) total tail.starts top },
    ghost sound_before: { Sound sealed (take sealed (items roll)) count 0 None },
    // the sealed entries stand for the sealed rows
    ghost front: { rows_of (take sealed (items roll)) ≡ take count (rows_of (items roll)) },
    ghost drafted: { Drafted count tail (rows_of (items roll)) },
}
