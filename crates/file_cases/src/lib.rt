// Record files and cards at the edges of their form. Every expected value follows from docs/FORMAT.md.
#![tactic(auto)]

#[cfg(test)]
mod cards;
#[cfg(test)]
mod files;
#[cfg(test)]
mod made;
