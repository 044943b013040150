// Rows at the edges of their order. Every expected value follows from docs/FORMAT.md and docs/REFUSALS.md.
#![tactic(auto)]

#[cfg(test)]
mod limits;
#[cfg(test)]
mod made;
#[cfg(test)]
mod rows;
