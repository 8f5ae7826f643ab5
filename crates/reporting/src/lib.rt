// The report: what a recipe does to the spans, stage by stage, as lines of text.
#![tactic(auto)]

pub mod line;
pub mod report;
