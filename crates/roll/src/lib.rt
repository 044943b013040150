// A list of bounded length, kept in storage that the caller lends.
#![tactic(auto, unfolding(crate::specs::Rolls::items, crate::specs::Rolls::slot_count))]

ghost use Rattle.std.specs.Prelude.{◌≡◌, ◌^◌, ◌<◌, ◌≤◌, [], ◌∷◌, ◌++◌, length, take, if◌then◌else◌, nat_lt, slice_set};
ghost use Rattle.std.specs.List.{slice_get};

// Means the list of its first `len` slots; slots behind them may hold anything.
// Kept: beside `Bounded` in `scope`, whose entries lie in an array of its own. One type for both would want a trait over
// the storage with two impls, which is longer than what the two share.
#[derive(Drop)]
pub struct Roll<'a, T> {
    slots: &'a mut [T],
    len: usize,
    ghost within: { len ≤ length slots.now },
}

impl<'a, T: Copy> Roll<'a, T> {
    ghost use Rattle.roll.specs.Rolls.{items, slot_count};

    pub fn new(slots: &'a mut [T]) -> Roll<'a, T>
        ensures items { items result ≡ [] }
        ensures slots { slot_count result ≡ length slots.old }
    {
        Roll { slots, len: 0 }
    }

    pub fn len(&self) -> usize
        ensures { result ≡ length (items self.now) }
    {
        self.as_slice().len()
    }

    pub fn capacity(&self) -> usize
        ensures { result ≡ slot_count self.now }
    {
        self.slots.len()
    }

    // Whether one more item can be pushed.
    pub fn has_room(&self) -> bool
        ensures answer { result ≡ nat_lt (length (items self.now)) (slot_count self.now) }
        ensures few { slot_count self.now < 2 ^ 64 }
    {
        self.len < self.slots.len()
    }

    pub fn as_slice(&self) -> &[T]
        ensures { result.now ≡ items self.now }
    {
        &self.slots[..self.len]
    }

    // The item at a number, or nothing past the last.
    pub fn get(&self, i: usize) -> Option<T>
        ensures { result ≡ slice_get (items self.now) i }
    {
        self.as_slice().get(i).copied()
    }

    // Adds an item at the end; false, and nothing is changed, where no slot is left.
    // Kept: a bool, since want of room is all that can be told, and each caller has its own refusal for it.
    pub fn push(&mut self, item: T) -> bool
        ensures answer { result ≡ nat_lt (length (items self.old)) (slot_count self.old) }
        ensures items { items self.new ≡ (if result then items self.old ++ item ∷ [] else items self.old) }
        ensures slots { slot_count self.new ≡ slot_count self.old }
    {
        if !self.has_room() {
            return false;
        }
        self.slots[self.len] = item;
        self.len += 1;
        true
    }

    // Keeps the first `n` items, or all where there are no more.
    pub fn truncate(&mut self, n: usize)
        ensures items { items self.new ≡ take n (items self.old) }
        ensures slots { slot_count self.new ≡ slot_count self.old }
    {
        self.len = self.len.min(n);
    }

    // Writes over an item; a number past the last is left alone.
    pub fn set(&mut self, i: usize, item: T)
        ensures items { items self.new ≡ slice_set (items self.old) i item }
        ensures slots { slot_count self.new ≡ slot_count self.old }
    {
        if i < self.len {
            self.slots[i] = item;
        }
    }
}
