// Sets of room impulse responses: their shapes, the spans of their channels, and why a call is refused.
#![tactic(auto)]

mod areas;
pub mod bounds;
mod filling;
mod reading;
pub mod refusal;
pub mod shape;
mod shapes;
pub mod span;
pub mod span_list;
mod spans;
