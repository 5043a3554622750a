//! The table that a script becomes, and that the machine runs.

/// One instruction: its code, its two operands, and the place in the text of the token that it came from.
///
/// Lent memory may hold anything, so the code is a byte that need not be one of the machine's.
#[derive(Clone, Copy, PartialEq, Eq, Debug)]
pub struct Entry {
    pub code: u8,
    pub a: i32,
    pub b: u16,
    pub place: u16,
}
