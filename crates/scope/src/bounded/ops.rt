ghost use Rattle.std.specs.Prelude.{◌≡◌, [], ◌∷◌, ◌++◌, length, take, if◌then◌else◌, nat_le, nat_lt};
ghost use Rattle.scope.specs.Bounded.{held};

use super::Bounded;

impl<T: Copy, const N: usize> Bounded<T, N> {
    // No entries; `blank` fills the memory.
    pub fn new(blank: T) -> Bounded<T, N>
        ensures { held result ≡ [] }
    {
        Bounded {
            slots: [blank; N],
            len: 0,
        }
    }

    pub fn len(&self) -> usize
        ensures { result ≡ length (held self.now) }
    {
        self.len
    }

    // The entries, the newest last.
    pub fn entries(&self) -> &[T]
        ensures { result.now ≡ held self.now }
    {
        &self.slots[..self.len]
    }

    pub fn is_full(&self) -> bool
        ensures { result ≡ nat_le N (length (held self.now)) }
    {
        self.len >= N
    }

    // Whether there was room for one more.
    // Kept: a bool, since want of room is all that can be told, and each caller has its own refusal for it.
    pub fn add(&mut self, entry: T) -> bool
        ensures room { result ≡ nat_lt (length (held self.old)) N }
        ensures held { held self.new ≡ (if result then held self.old ++ entry ∷ [] else held self.old) }
    {
        if self.is_full() {
            return false;
        }
        self.slots[self.len] = entry;
        self.len += 1;
        true
    }

    // Keeps the eldest `n`; the others end with the element that made them.
    pub fn cut(&mut self, n: usize)
        ensures { held self.new ≡ take n (held self.old) }
    {
        self.len = self.len.min(n);
    }
}
