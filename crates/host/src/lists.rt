//! A host over two lent lists.
ghost use Rattle.std.specs.Prelude.{◌≡◌, ◌≤◌, length, drop};
ghost use Rattle.host.specs.Meaning.{fresh};

use crate::{Host, PutRefusal};

/// Takes values from one lent list, and puts values into another.
#[derive(Drop)]
pub struct ListHost<'a> {
    source: &'a [i32],
    /// How many values of `source` were taken.
    taken: usize,
    // Not a `Pile`: of a loan in a struct in a struct it is not proved what goes back to the lender.
    sink: &'a mut [i32],
    /// How many values were written to the front of `sink`.
    filled: usize,
    ghost fits: { filled ≤ length sink.now },
}

impl Host for ListHost<'_> {
    ghost use Rattle.host.specs.Lists.{list_meaning, ListSince};

    ghost meaning = { list_meaning };

    ghost since = { ListSince };

    fn take(&mut self) -> Option<i32> {
        let value = self.source.get(self.taken).copied()?;
        self.taken += 1;
        Some(value)
    }

    fn put(&mut self, value: i32) -> Result<(), PutRefusal> {
        if self.filled == self.sink.len() {
            return Err(PutRefusal::Full);
        }
        // By index: what a slice holds after a write through `get_mut` has no clause.
        self.sink[self.filled] = value;
        self.filled += 1;
        Ok(())
    }
}

impl<'a> ListHost<'a> {
    ghost use Rattle.host.specs.Lists.{list_meaning, list_source, list_taken, list_sink, ListOver};

    /// A host over these lists, from which nothing is taken and into which nothing is written yet.
    pub fn new(source: &'a [i32], sink: &'a mut [i32]) -> ListHost<'a>
        ensures means { list_meaning result ≡ fresh source.now (length sink.old) }
        ensures count { list_taken result ≡ 0 }
        ensures reads { list_source result ≡ source.now }
        ensures memory { ListOver sink.entry result }
        ensures holds { list_sink result ≡ sink.old }
    {
        ListHost {
            source,
            taken: 0,
            sink,
            filled: 0,
        }
    }

    /// How many values were taken.
    pub fn taken(&self) -> usize
        ensures count { result ≡ list_taken self.now }
        ensures waits { (list_meaning self.now).waiting ≡ drop result (list_source self.now) }
    {
        self.taken
    }

    /// The values written so far.
    pub fn written(&self) -> &[i32]
        ensures { result.now ≡ (list_meaning self.now).written }
    {
        &self.sink[..self.filled]
    }
}
