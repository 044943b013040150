ghost use Rattle.std.specs.Prelude.{◌≡◌};
ghost use Rattle.std.specs.Str.{bytes_eq};
ghost use Rattle.text.specs.Bytes.{begins};

// The one equality of byte strings: all other code compares by it.
// Kept: a rule of the project, so that a wrong comparison is refused, in one place for all callers.
pub fn same(a: &[u8], b: &[u8]) -> bool
    ensures { result ≡ bytes_eq a.now b.now }
{
    a == b
}

// Whether `s` begins with `stem`.
// Kept: the same rule, for beginnings.
#[tactic(auto, unfolding(crate::specs::Bytes::begins))]
pub fn starts_with(s: &[u8], stem: &[u8]) -> bool
    ensures { result ≡ begins stem.now s.now }
{
    s.starts_with(stem)
}
