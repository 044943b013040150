ghost use Rattle.std.specs.Prelude.{◌≡◌, ℕ, Bool, ◌++◌, take, drop};
ghost use Rattle.std.specs.List.{prefix_len};
ghost use Rattle.items.specs.Items.{is_blank, is_colon};

// Space, tab, line feed and carriage return part the items of a list.
pub(crate) fn is_blank(b: u8) -> bool
    ensures { result ≡ is_blank b }
{
    match char::from(b) {
        ' ' | '\t' | '\n' | '\r' => true,
        _ => false,
    }
}

pub(crate) fn is_colon(b: u8) -> bool
    ensures { result ≡ is_colon b }
{
    match char::from(b) {
        ':' => true,
        _ => false,
    }
}

// Parts a string behind the longest front whose bytes all pass.
pub(crate) fn split_run<F: Fn(u8) -> bool>(s: &[u8], passes: F) -> (&[u8], &[u8])
    requires { F.IsAlwaysCallable passes }
    ensures run { (p : ℕ → Bool) → ((b : ℕ) (r : Bool) → F.post passes b r → r ≡ p b) → (result.0.now ≡ take (prefix_len p s.now) s.now) × (result.1.now ≡ drop (prefix_len p s.now) s.now) }
    ensures whole { s.now ≡ result.0.now ++ result.1.now }
{
    s.split_at(s.iter().take_while(|b| passes(**b)).count())
}
