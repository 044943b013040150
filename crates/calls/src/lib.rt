// The five calls as definitions over a record, a sheet and the answer; the book, and the law over every sequence of calls.
#![tactic(auto)]

pub mod answer;
pub mod laws;
