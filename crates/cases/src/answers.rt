//! What a run tells, as a case file writes it.
use crate::words::{Flaw, Words};
use model::told::Told;
use std::fmt;

/// What a run tells, with a fault by its number.
// Not `Told` itself: a case may write a number that no fault has, which is told as a difference. Nor `Told` of any fault: the
// definitions of the machine and of the calls name it, and would name its fault everywhere.
#[derive(Clone, Copy, PartialEq, Eq)]
pub enum Answer {
    Ended {
        steps: u32,
    },
    Stopped {
        fault: u8,
        entry: usize,
        place: u16,
        steps: u32,
    },
    Running {
        steps: u32,
    },
}

impl Answer {
    /// The answer that the words left on a line are.
    pub fn read(mut words: Words<'_>) -> Result<Answer, Flaw> {
        let answer = match words.word()? {
            "ended" => Answer::Ended {
                steps: words.labelled("steps")?,
            },
            "running" => Answer::Running {
                steps: words.labelled("steps")?,
            },
            "stopped" => Answer::Stopped {
                fault: words.number()?,
                entry: words.labelled("entry")?,
                place: words.labelled("place")?,
                steps: words.labelled("steps")?,
            },
            _ => return Err(Flaw::WrongWord),
        };
        words.end()?;
        Ok(answer)
    }
}

impl From<Told> for Answer {
    fn from(told: Told) -> Answer {
        match told {
            Told::Ended { steps } => Answer::Ended { steps },
            Told::Stopped {
                fault,
                entry,
                place,
                steps,
            } => Answer::Stopped {
                fault: fault.number(),
                entry,
                place,
                steps,
            },
            Told::Running { steps } => Answer::Running { steps },
        }
    }
}

impl fmt::Display for Answer {
    fn fmt<W: fmt::Write>(&self, f: &mut fmt::Formatter<W>) -> fmt::Result {
        match *self {
            Answer::Ended { steps } => write!(f, "ended steps {steps}"),
            Answer::Stopped {
                fault,
                entry,
                place,
                steps,
            } => write!(
                f,
                "stopped {fault} entry {entry} place {place} steps {steps}"
            ),
            Answer::Running { steps } => write!(f, "running steps {steps}"),
        }
    }
}
