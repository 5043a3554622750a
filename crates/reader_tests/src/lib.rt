//! The reader on texts that are easily misread.
#![tactic(auto)]

#[cfg(test)]
mod tests;
