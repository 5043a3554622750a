//! What an advance tells.
use super::faults::RunFault;

/// How far an advance came, with the steps that it made.
#[derive(Clone, Copy, PartialEq, Eq, Debug)]
pub enum Told {
    /// The script came to its end.
    Ended {
        steps: u32,
    },
    /// An instruction could not be carried out: the fault, the entry and its place, 0 past the code.
    Stopped {
        fault: RunFault,
        entry: usize,
        place: u16,
        steps: u32,
    },
    /// The budget is spent.
    Running {
        steps: u32,
    },
}
