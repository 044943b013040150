// What a knowledge says of the texts of a record, each asked once.
#![tactic(auto)]

pub mod ask;

// The most texts that a record has.
const TEXTS: usize = 1024;

// The answer for each text, and for the empty string, which stands for every number past the last text.
#[derive(Drop)]
pub struct Understood {
    answers: [bool; TEXTS],
    empty: bool,
}
