//! The machine at work on short tables.
#![tactic(auto)]

#[cfg(test)]
mod tests;
