//! The lines, words and numbers of a case file.
use std::alloc::{AllocError, AllocFailed, Global};
use std::str::{FromStr, SplitWhitespace};
use thiserror::Error;

/// Why a case file, or the cases in it, cannot be read to the end.
#[derive(Clone, Copy, Debug, Error)]
pub enum Flaw {
    /// The line begins with no word that is known.
    #[error("no line of a case begins like this")]
    NoSuchLine,
    /// The line may not stand here.
    #[error("this line may not stand here")]
    Misplaced,
    /// A word is wanted behind the last one.
    #[error("a word is missing at the end of the line")]
    Missing,
    /// There is a word more than is wanted.
    #[error("there are too many words on the line")]
    TooMany,
    /// Another word is wanted.
    #[error("another word is wanted here")]
    WrongWord,
    /// The word is no number, or one that is too great or too small here.
    #[error("a word is not the number that is wanted here")]
    NoNumber,
    /// The word is no code, neither by name nor by number.
    #[error("a code is wanted here, by its name or as a number up to 255")]
    NoCode,
    /// The text ends within a case.
    #[error("the text ends within a case")]
    Unfinished,
    /// There is no memory left.
    #[error("there is no memory left")]
    Memory,
}

impl From<AllocError> for Flaw {
    fn from(_error: AllocError) -> Flaw {
        Flaw::Memory
    }
}

impl<T: Drop> From<AllocFailed<T>> for Flaw {
    fn from(_refused: AllocFailed<T>) -> Flaw {
        Flaw::Memory
    }
}

/// The words of a line that were not read yet.
#[derive(Drop)]
pub struct Words<'a> {
    rest: SplitWhitespace<'a>,
}

impl<'a> Words<'a> {
    /// All words of a line.
    pub fn of(line: &'a str) -> Words<'a> {
        Words {
            rest: line.split_whitespace(),
        }
    }

    /// The next word, where there is one more.
    pub fn next(&mut self) -> Option<&'a str> {
        self.rest.next()
    }

    /// The next word, which must be there.
    pub fn word(&mut self) -> Result<&'a str, Flaw> {
        self.rest.next().ok_or(Flaw::Missing)
    }

    /// The next word, which must be `wanted`.
    pub fn expect(&mut self, wanted: &str) -> Result<(), Flaw> {
        if self.word()? != wanted {
            return Err(Flaw::WrongWord);
        }
        Ok(())
    }

    /// The number that the next word is.
    pub fn number<N: FromStr>(&mut self) -> Result<N, Flaw>
    where
        N::Err: Drop,
    {
        self.word()?.parse().map_err(|_| Flaw::NoNumber)
    }

    /// The number behind a label.
    pub fn labelled<N: FromStr>(&mut self, label: &str) -> Result<N, Flaw>
    where
        N::Err: Drop,
    {
        self.expect(label)?;
        self.number()
    }

    /// The number that the one word left is.
    pub fn only<N: FromStr + Drop>(mut self) -> Result<N, Flaw>
    where
        N::Err: Drop,
    {
        let number = self.number()?;
        self.end()?;
        Ok(number)
    }

    /// The values that all words left are.
    pub fn values(self, heap: Global) -> Result<Vec<i32>, Flaw> {
        self.rest
            .map(|word| word.parse::<i32>().map_err(|_| Flaw::NoNumber))
            .try_collect(heap)
    }

    /// Sees that no word is left.
    pub fn end(mut self) -> Result<(), Flaw> {
        match self.rest.next() {
            Some(_) => Err(Flaw::TooMany),
            None => Ok(()),
        }
    }
}
