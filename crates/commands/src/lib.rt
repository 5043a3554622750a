//! Commands that hold no other command: assignments, calls of procedures, `leia` and `escreva`; and conditions.
//!
//! What is left alone (`Kept`), and that tokens were taken (`Passed`), is a clause of each function: it relates two
//! moments.
#![tactic(auto)]

pub mod apart;
mod conditions;
mod leading;
mod passing;

pub use conditions::condition;
pub use leading::named;
pub use passing::{read_value, write_value};

/// The variable that is read or written: its cell, and the place of its name.
#[derive(Clone, Copy)]
pub(crate) struct Target {
    cell: u16,
    place: u16,
}
