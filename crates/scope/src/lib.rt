// What is in scope at an element: three lists of entries, and the one search.
#![tactic(auto, using(crate::proofs::Finds::newest_found), unfolding(crate::proofs::Finds::open_entries))]

pub mod bounded;
pub mod entries;
pub mod find;
pub mod search;
