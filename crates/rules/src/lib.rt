// What every kind of stage does to samples, and its laws.
#![tactic(auto)]

pub mod worked;
