//! What all kinds of cases have in common.
use crate::words::{Flaw, Words};
use std::alloc::{AllocError, Global};

/// Why a case does not agree.
#[derive(Drop)]
pub enum Difference {
    /// It differs, as the words tell.
    Told(String),
    /// There is no memory left for running it.
    Memory,
}

impl From<AllocError> for Difference {
    fn from(_error: AllocError) -> Difference {
        Difference::Memory
    }
}

/// A kind of case: how its lines are read, and what is compared.
pub trait Kind {
    /// The name of the case that was read last.
    fn name(&self) -> &str;

    /// Whether the case that was read last has all its lines.
    fn is_whole(&self) -> bool;

    /// Reads the next line: its first word, and the words behind it.
    fn read(&mut self, heap: Global, key: &str, words: Words<'_>) -> Result<(), Flaw>;

    /// Runs the case that was read last, and tells in words the first thing that differs.
    fn check(&self, heap: Global) -> Result<(), Difference>;
}
