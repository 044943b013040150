// How far a record has come, and which row may come next.
#![tactic(auto, unfolding(rules::specs::Elements::open_elements, rules::specs::Order::open_order, rules::specs::Records::open_records))]

mod form;
pub mod progress;
mod repeat;
pub mod waiting;
