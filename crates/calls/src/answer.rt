use record::refusal::Refusal;

// What a call answers.
// Kept: a Result would still need an enum for what is accepted, and `Done`, `Added n` and `Refused e` of the law would become `Ok Done`,
// `Ok (Added n)` and `Err e`.
#[derive(Clone, Copy, PartialEq, Eq, Debug)]
pub enum Answer {
    // begin, row and abandon
    Done,
    // finish and file: how many rows they put behind the sealed ones
    Added(usize),
    Refused(Refusal),
}
