ghost use Rattle.std.specs.Prelude.{◌≡◌, ◌≤◌, length, IfOk, nat_lt};
ghost use Rattle.std.specs.List.{slice_get};
ghost use Rattle.std.specs.Option.{option_map};
ghost use Rattle.file.specs.Form.{pair_count, read_texts, text_at, Distinct};

use crate::pairs::{first_misplaced, first_repeated, pair_count, text_of};
use record::refusal::Refusal;

// The texts of a file: a table of pairs of offset and length, and the bytes that they lie in.
#[derive(Clone, Copy)]
pub struct Texts<'a> {
    pairs: &'a [u8],
    bytes: &'a [u8],
    ghost few: { pair_count pairs.now ≤ 1024 },
}

impl<'a> Texts<'a> {
    ghost use Rattle.file.specs.Texts.{texts, texts_answer};

    // The texts of a table, or the first pair that is misplaced, or the first that is repeated.
    #[tactic(auto, unfolding(crate::specs::Form::read_texts))]
    pub(crate) fn check(pairs: &'a [u8], bytes: &'a [u8]) -> Result<Texts<'a>, Refusal>
        requires { pair_count pairs.now ≤ 1024 }
        ensures answer { texts_answer result ≡ read_texts pairs.now bytes.now }
        ensures distinct { IfOk result (λ t. Distinct (texts t)) }
    {
        if let Some(pair) = first_misplaced(pairs, bytes.len()) {
            return Err(Refusal::MisplacedText { pair });
        }
        if let Some(pair) = first_repeated(pairs, bytes) {
            return Err(Refusal::RepeatedText { pair });
        }
        Ok(Texts { pairs, bytes })
    }

    pub fn count(self) -> usize
        ensures { result ≡ length (texts self.entry) }
    {
        pair_count(self.pairs)
    }

    // Whether the file has a text of this number.
    pub fn has(self, n: u32) -> bool
        ensures { result ≡ nat_lt n (length (texts self.entry)) }
    {
        (n as usize) < self.count()
    }

    // The text of a number, or nothing where the file has none.
    pub fn get(self, n: u32) -> Option<&'a [u8]>
        ensures { option_map (λ x. x.now) result ≡ slice_get (texts self.entry) n }
    {
        self.has(n)
            .then(|| text_of(self.pairs, self.bytes, n as usize))
    }

    // The text of a number, the empty one where the file has none.
    pub fn at(self, n: u32) -> &'a [u8]
        ensures { result.now ≡ text_at (texts self.entry) n }
    {
        self.get(n).unwrap_or(b"")
    }
}
