//! Faults in words.
use super::positions::{Position, locate};
use model::faults::{Cause, Fault, GrammarFault, MeaningFault, ReaderFault, RoomFault};
use std::fmt;

/// What a fault means, in words.
pub fn cause_words(cause: Cause) -> &'static str {
    match cause {
        Cause::Reader(ReaderFault::NoToken) => "no token begins here",
        Cause::Reader(ReaderFault::OpenComment) => "this comment is never closed",
        Cause::Reader(ReaderFault::LargeNumber) => "the number is above 2147483647",
        Cause::Reader(ReaderFault::LongName) => "the name has more than 30 bytes",
        Cause::Grammar(GrammarFault::NotAdmitted) => "this may not stand here",
        Cause::Grammar(GrammarFault::TextEnded) => "the text ended too early",
        Cause::Grammar(GrammarFault::TooDeep) => "more than 64 levels are nested",
        Cause::Meaning(MeaningFault::NotVisible) => "no such name is visible here",
        Cause::Meaning(MeaningFault::Twice) => "the block has this name already",
        Cause::Meaning(MeaningFault::WrongKind) =>
            "the name stands for something else than is wanted here",
        Cause::Meaning(MeaningFault::WrongType) => "the types do not agree",
        Cause::Room(RoomFault::LongText) => "the text has more than 65535 bytes",
        Cause::Room(RoomFault::NamesFull) => "there is no record left for this name",
        Cause::Room(RoomFault::TableFull) => "the table is too short for the script",
        Cause::Room(RoomFault::ManyCells) => "the script wants more than 4096 cells",
    }
}

/// A fault of a text, to be shown with its number, its line and column, and what it means.
#[derive(Clone, Copy, PartialEq, Eq, Debug)]
pub struct FaultReport<'a> {
    pub text: &'a [u8],
    pub fault: Fault,
}

impl fmt::Display for FaultReport<'_> {
    fn fmt<W: fmt::Write>(&self, f: &mut fmt::Formatter<W>) -> fmt::Result {
        let Fault { cause, place } = self.fault;
        let Position { line, column } = locate(self.text, place);
        let number = cause.number();
        let words = cause_words(cause);
        write!(f, "fault {number}, line {line}, column {column}: {words}")
    }
}
