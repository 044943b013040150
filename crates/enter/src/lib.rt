// What is in scope at an element, and the whole trial of one element.
#![tactic(auto, using(crate::proofs::Entered::trying), unfolding(crate::proofs::Entered::open_trial))]

pub mod element;
pub mod in_scope;
