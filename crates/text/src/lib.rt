// Byte strings: one equality, and the fixed names of markup compatibility.
#![tactic(auto)]

pub mod bytes;
pub mod names;
