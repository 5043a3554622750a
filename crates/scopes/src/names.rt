//! What is kept of a declared name while its block is open.
use model::names::NameKind;

/// A declared name: where it is spelled in the text, what it stands for, its cell and its first entry.
///
/// A variable has a cell, a procedure an entry, a function both: the cell is that of its result, which is set only
/// while the function's block is open.
//
// Not the shared record of `model`, which the definitions of the calls name: that has no `inside`, and an entry of 32 bits.
// Flat, with 0 or `false` where a kind has none: as payloads of the kinds, cell and entry would be named for each. By
// place and length of the spelling, and no slice: memory is lent and fixed, and a record holds no borrow.
#[derive(Clone, Copy, PartialEq, Eq, Debug)]
pub struct Name {
    pub place: u16,
    pub length: u8,
    pub kind: NameKind,
    pub cell: u16,
    pub entry: u16,
    /// Whether the text being translated stands inside the routine of this name.
    pub inside: bool,
}
