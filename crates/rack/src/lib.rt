// A rack is a bank of stages behind one interface: what makes one, and the calls that every rack answers.
#![tactic(auto)]

pub mod rack;
pub mod stages;
