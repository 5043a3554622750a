//! The records of names that a translation keeps in lent memory.
use super::script::Ty;

/// What a name stands for.
// `Nothing` is one of these, and no `Option` around them: blank memory and a name that waits for its type are matched
// together with the others, by one `match`.
#[derive(Clone, Copy, PartialEq, Eq, Debug)]
pub enum NameKind {
    /// Nothing: the record is blank.
    Nothing,
    Variable(Ty),
    Procedure,
    Function(Ty),
}

/// A declared name: where it is spelled in the text, what it stands for, its cell and its first entry.
///
/// A variable has a cell, a procedure an entry, a function both: the cell is that of its result.
// Flat, with 0 where a kind has none, and its spelling by place: so the definitions of the calls have it.
#[derive(Clone, Copy, PartialEq, Eq, Debug)]
pub struct Name {
    pub place: u16,
    pub length: u8,
    pub kind: NameKind,
    pub cell: u16,
    pub entry: u32,
}
