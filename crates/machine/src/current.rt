//! The entry that is carried out.
ghost use Rattle.std.specs.Prelude.{◌≡◌, suc, ◌^◌, ◌<◌};
ghost use Rattle.machine.specs.Carried.{Targeted};

use model::faults::RunFault;
use model::table::Entry;

/// The entry that is carried out, and where it stands in a table that is reached whole.
#[derive(Clone, Copy)]
pub(crate) struct Current<'a> {
    pub(crate) entry: &'a Entry,
    /// Its index.
    pub(crate) at: usize,
    /// How many entries the table has.
    pub(crate) entries: usize,
    ghost stands: { at < entries },
    ghost reached: { entries < 2 ^ 31 },
}

impl Current<'_> {
    /// The index behind it.
    pub(crate) fn next(self) -> usize
        ensures { result ≡ suc self.entry.at }
    {
        self.at + 1
    }

    /// The one of the entries that an operand is.
    pub(crate) fn target(self, a: i32) -> Result<usize, RunFault>
        ensures { Targeted a self.entry.entries result }
    {
        usize::try_from(a)
            .ok()
            .filter(|i| *i < self.entries)
            .ok_or(RunFault::NoEntry)
    }
}
