//! Tokens, which borrow the text that they were read from.
use model::tokens::{Sign, Word};

/// A token; a name holds the part of the text that it was read from.
#[derive(Clone, Copy, PartialEq, Eq, Debug)]
pub enum Token<'a> {
    Word(Word),
    Sign(Sign),
    Name(&'a [u8]),
    Number(u32),
}

/// A token, and the place of its first byte.
#[derive(Clone, Copy, PartialEq, Eq, Debug)]
pub struct Lexeme<'a> {
    pub token: Token<'a>,
    pub place: usize,
}

/// A token, and how many bytes it takes.
#[derive(Clone, Copy, PartialEq, Eq, Debug)]
pub(crate) struct Piece<'a> {
    pub(crate) token: Token<'a>,
    pub(crate) len: usize,
}
