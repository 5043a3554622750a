//! Hosts at work: a host of one's own, functions over any host, and the hosts over lists and tapes on examples.
#![tactic(auto)]

pub mod counting;
pub mod passing;
#[cfg(test)]
mod tests;
