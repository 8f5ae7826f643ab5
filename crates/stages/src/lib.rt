// The kinds of stage (lifting, the reversible colour transform, and dependency rows), their rules on spans,
// and tables of stages.
#![tactic(auto)]

mod checked;
pub mod colour;
mod counted;
mod dep_spans;
mod floor;
mod gather;
pub mod indexed;
mod indices;
mod lift_channel;
mod lift_spans;
mod lift_time;
mod line;
mod outside;
mod parity;
pub mod product;
pub mod quotient;
mod ranges;
mod rct_spans;
pub mod reach;
mod reaching;
mod slots;
mod sources;
pub mod stage;
pub mod table;
pub mod widen;
pub mod worked;
