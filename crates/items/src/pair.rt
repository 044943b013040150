ghost use Rattle.std.specs.Prelude.{◌≡◌, ℕ, List, ◌++◌, codes};
ghost use Rattle.std.specs.Str.{bytes_eq};
ghost use Rattle.items.specs.Items.{has_colon, prefix_part, local_part, is_pair};

use crate::run::{is_colon, split_run};

pub fn has_colon(s: &[u8]) -> bool
    ensures { result ≡ has_colon s.now }
{
    s.iter().any(|b| is_colon(*b))
}

// The prefix and the local name of an item: what stands before its first colon, and what stands behind it.
pub fn split(item: &[u8]) -> (&[u8], &[u8])
    ensures prefix { result.0.now ≡ prefix_part item.now }
    ensures local { result.1.now ≡ local_part item.now }
    ensures place { (front : List ℕ) × (item.now ≡ front ++ result.1.now) }
{
    let (prefix, rest) = split_run(item, |b| !is_colon(b));
    let (_, local) = rest.split_at(rest.len().min(1));
    (prefix, local)
}

fn is_star(s: &[u8]) -> bool
    ensures { result ≡ bytes_eq s.now (codes "*") }
{
    s.len() == 1
        && match char::from(s[0]) {
            '*' => true,
            _ => false,
        }
}

// Whether an item has two parts around its only colon, neither empty and the second not a star.
pub fn is_pair(item: &[u8]) -> bool
    ensures { result ≡ is_pair item.now }
{
    let (prefix, local) = split(item);
    !prefix.is_empty() && !local.is_empty() && !has_colon(local) && !is_star(local)
}
