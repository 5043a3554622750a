//! The machine: one instruction of a table, and a run with a budget, over any host.
#![tactic(auto)]

mod cells;
mod current;
mod exchange;
mod frames;
mod jumps;
pub mod run;
mod values;
