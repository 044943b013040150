// Elements at the edges of their trial. Every expected value follows from docs/RULES.md and docs/REFUSALS.md.
#![tactic(auto)]

#[cfg(test)]
mod made;
#[cfg(test)]
mod tests;
