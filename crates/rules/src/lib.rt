// The rules of markup compatibility: the three steps as definitions over the rows of a record, and their laws.
#![tactic(auto)]

pub mod laws;
pub mod state;
