// The items of a list value, and the two parts of an item of ProcessContent.
#![tactic(auto)]

pub mod list;
pub mod pair;
mod run;
