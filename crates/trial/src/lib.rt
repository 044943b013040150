// The trials of the lists that an element's attributes hold: their items one after the other, the first fault counts.
// Kept: a place, the texts and the bindings as three parameters. The texts are also read alone (for a value, and for what
// marks and pairs mean), so each body and contract would take a struct of them apart again.
#![tactic(auto)]

pub mod ignorable;
pub mod prefix;
pub mod process;
