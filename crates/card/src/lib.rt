// Cards: the files that say what a reader knows.
#![tactic(auto)]

pub mod checked;
pub mod extensions;
pub mod kind;
pub mod known;
mod right;
