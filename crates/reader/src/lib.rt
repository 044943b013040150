// The reader: five calls over any sheet and any knowledge, and a replay of any sequence of them.
#![tactic(auto, unfolding(calls::specs::Calls::begin_on, calls::specs::Calls::row_on, calls::specs::Calls::finish_on, calls::specs::Calls::abandon_on))]

pub mod state;
