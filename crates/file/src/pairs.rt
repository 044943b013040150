ghost use Rattle.std.specs.Prelude.{◌≡◌, ◌<◌, ◌≤◌};
ghost use Rattle.file.specs.Form.{pair_count, offset, ending, text_of, misplaced, repeated, first_from};

use crate::number::number_at;
use text::bytes::same;

// How many pairs a table has: each is an offset and a length, of four bytes.
pub(crate) fn pair_count(pairs: &[u8]) -> usize
    ensures { result ≡ pair_count pairs.now }
{
    pairs.len() / 8
}

#[tactic(auto, unfolding(crate::specs::Form::offset))]
fn offset_of(pairs: &[u8], k: usize) -> usize
    requires { k < pair_count pairs.now }
    ensures { result ≡ offset pairs.now k }
{
    number_at(pairs, 8 * k) as usize
}

// Where the text of a pair ends. The sum is taken in 64 bits, so it does not wrap.
#[tactic(auto, unfolding(crate::specs::Form::ending, crate::specs::Form::offset))]
fn end_of(pairs: &[u8], k: usize) -> usize
    requires { k < pair_count pairs.now }
    ensures { result ≡ ending pairs.now k }
{
    number_at(pairs, 8 * k) as usize + number_at(pairs, 8 * k + 4) as usize
}

// The text of a pair; what would lie past the bytes is not there.
pub(crate) fn text_of<'a>(pairs: &[u8], bytes: &'a [u8], k: usize) -> &'a [u8]
    requires { k < pair_count pairs.now }
    ensures { result.now ≡ text_of pairs.now bytes.now k }
{
    let to = end_of(pairs, k).min(bytes.len());
    let from = offset_of(pairs, k).min(to);
    &bytes[from..to]
}

#[tactic(auto, unfolding(crate::specs::Form::misplaced))]
fn is_misplaced(pairs: &[u8], limit: usize, k: usize) -> bool
    requires { k < pair_count pairs.now }
    ensures { result ≡ misplaced pairs.now limit k }
{
    if k == 0 {
        return offset_of(pairs, 0) != 0 || end_of(pairs, 0) != 0;
    }
    offset_of(pairs, k) < end_of(pairs, k - 1) || limit < end_of(pairs, k)
}

// The first pair whose text does not lie behind the one before and within the text bytes.
pub(crate) fn first_misplaced(pairs: &[u8], limit: usize) -> Option<u32>
    requires { pair_count pairs.now ≤ 1024 }
    ensures { result ≡ first_from (misplaced pairs.now limit) 0 (pair_count pairs.now) }
{
    (0..pair_count(pairs))
        .find(|&k| is_misplaced(pairs, limit, k))
        .map(|k| k as u32)
}

// Whether an earlier pair has the same bytes. Texts of other lengths are told apart without a look at their bytes.
fn is_repeated(pairs: &[u8], bytes: &[u8], k: usize) -> bool
    requires { k < pair_count pairs.now }
    ensures { result ≡ repeated pairs.now bytes.now k }
{
    let text = text_of(pairs, bytes, k);
    (0..k).any(|j| same(text_of(pairs, bytes, j), text))
}

// The first pair that has the bytes of an earlier one.
pub(crate) fn first_repeated(pairs: &[u8], bytes: &[u8]) -> Option<u32>
    requires { pair_count pairs.now ≤ 1024 }
    ensures { result ≡ first_from (repeated pairs.now bytes.now) 0 (pair_count pairs.now) }
{
    (0..pair_count(pairs))
        .find(|&k| is_repeated(pairs, bytes, k))
        .map(|k| k as u32)
}
