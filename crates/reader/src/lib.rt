//! Bytes to tokens, one at a time, with no memory of its own.
#![tactic(auto)]

ghost use Rattle.std.specs.Prelude.{◌≤◌, length};

mod classes;
mod gaps;
mod names;
mod numbers;
mod runs;
mod signs;
mod steps;
pub mod tokens;
mod words;

/// A text, and how far it has been read.
// Not the rest of it alone: places count from the start of the text.
#[derive(Drop)]
pub struct Reader<'a> {
    text: &'a [u8],
    at: usize,
    ghost within: { at ≤ length text.now },
}
