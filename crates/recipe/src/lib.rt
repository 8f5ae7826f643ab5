// Recipes: the text format, its reader, and the table of stages.
#![tactic(auto)]

pub mod ask;
mod begin;
mod begun;
mod checks;
pub mod entries;
pub mod fault;
pub mod field;
mod forms;
mod grow;
mod kinds;
pub mod line;
mod lines;
mod next_line;
pub mod numbered;
mod numbers;
pub mod read;
pub mod reader;
mod reading;
pub mod request;
pub mod table;
mod take;
