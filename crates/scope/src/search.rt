ghost use Rattle.std.specs.Prelude.{◌≡◌, Bool, reverse};
ghost use Rattle.rules.specs.Scope.{first_with};

// An entry that can be sought by a key.
pub trait Keyed<K>: Copy {
    ghost fits: { Self → K → Bool };

    fn has(&self, key: &K) -> bool
        ensures { result ≡ fits self.now key.now };
}

// The newest entry, which is the last, that has the key.
pub fn newest<E: Keyed<K>, K>(entries: &[E], key: &K) -> Option<E>
    ensures { result ≡ first_with (λ e. E.Keyed.fits e key.now) (reverse entries.now) }
{
    entries.iter().rev().copied().find(|e| e.has(key))
}
