//! What a person is shown of a script: places as lines and columns, tokens as they are spelled, faults in words.
#![tactic(auto)]

pub mod faults;
pub mod positions;
pub mod spelling;
