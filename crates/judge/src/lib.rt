// The trial of one element.
#![tactic(auto, using(rules::proofs::Firsts::first_append, rules::proofs::Firsts::first_one), unfolding(rules::specs::Elements::open_elements, rules::specs::Scope::open_scope, rules::specs::Faults::open_faults))]

pub mod declare;
pub mod element;
pub mod lists;
pub mod place;
