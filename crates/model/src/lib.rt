//! The types that every crate shares, and in specs/ every definition of the subject.
//!
//! Data flows one way: text, tokens, judged script, table, run. The definitions stand in that order in specs/Lib.antt.
#![tactic(auto)]

pub mod faults;
pub mod names;
pub mod ops;
pub mod script;
pub mod table;
pub mod tokens;
pub mod told;
