// Record files: the check of their form, their texts and their rows.
#![tactic(auto)]

pub mod checked;
mod number;
mod pairs;
pub mod rows;
pub mod texts;
