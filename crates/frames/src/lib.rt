// What is known of each open element, and what a start opens.
#![tactic(auto)]

pub mod frame;
pub mod judged;
pub mod marks;
pub mod names;
pub mod open;
pub mod opened;
pub mod put;
pub mod states;
pub mod tried;
