//! Piles at work, over elements of several kinds.
#![tactic(auto)]

#[cfg(test)]
mod tests;
