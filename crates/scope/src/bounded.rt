ghost use Rattle.std.specs.Prelude.{◌≡◌, ◌≤◌, length};

pub mod ops;

// A list of at most N entries, in fixed memory.
// Kept: a length beside the slots, since the lists of a reader stand in fixed memory. `arrayvec::ArrayVec` is the same, but asks that
// each entry has a default and writes defaults over all that `truncate` cuts, at the end of each element.
#[derive(Drop)]
pub struct Bounded<T, const N: usize> {
    slots: [T; N],
    len: usize,
    ghost few: { len ≤ N },
    ghost long: { length slots ≡ N },
}
