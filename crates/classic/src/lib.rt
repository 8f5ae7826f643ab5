// The classic stages: a table that is the same for every recording.
#![tactic(auto)]

pub mod table;
