//! The names of a script's open blocks: records over lent memory, newest last.
//!
//! A name finds the newest record that is spelled like it. The names of a block lie above its mark, and go when the
//! block is closed.
#![tactic(auto)]

mod finding;
mod laying;
pub mod names;

use crate::names::Name;
use pile::Pile;

/// The records of the names that are declared in the open blocks of a text.
//
// The clauses take the open blocks and `over` as arguments: they are the judge's and the table's, and cannot be told from
// these fields, and a ghost field keeps a fact, no data.
// What stays, `Keeps`, is a clause of each method: it relates two moments.
#[derive(Drop)]
pub struct Scopes<'a> {
    text: &'a [u8],
    records: Pile<'a, Name>,
}

/// Where the names of a block begin: given when the block opens, and spent to cut its names back.
#[derive(Drop)]
pub struct Mark {
    level: usize,
}
