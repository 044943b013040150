// What is decided of an element that passed its trial, by the answers of a knowledge for the texts of its record.
#![tactic(auto)]

pub mod mismatch;
pub mod put;
pub mod required;
pub mod rows;
pub mod space;
pub mod state;
pub mod view;
