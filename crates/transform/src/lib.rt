// Stages on samples: applied and undone in place.
#![tactic(auto)]

pub mod bank;
mod dep;
mod dep_rows;
mod dep_work;
mod indexing;
mod lift;
mod lift_work;
mod lifting;
mod lines;
mod lining;
mod lone;
mod long_lines;
mod low_bits;
mod rct;
mod rct_work;
mod row;
mod run;
mod runs;
mod sources;
mod stage_work;
mod steps;
mod turn;
mod turn_row;
mod work;
