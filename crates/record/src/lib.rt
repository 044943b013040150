// The rows of a record, and every refusal that a call can answer.
#![tactic(auto)]

pub mod refusal;
pub mod row;
