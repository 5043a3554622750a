//! A pile made, asked, and changed at one place.
ghost use Rattle.std.specs.Prelude.{◌≡◌, length, MatchResult, nat_le};
ghost use Rattle.pile.specs.Piles.{lent, memory, front, fill_of, Opened, Laid, NoRoom, Taken, NoTop, Stands, Unfilled, Changed, Shortened, TooLow};

use crate::{Pile, Refusal};

impl<'a, T: Copy> Pile<'a, T> {
    /// An empty pile over the memory.
    pub fn new(cells: &'a mut [T]) -> Pile<'a, T>
        ensures { Opened cells.entry 0 result }
    {
        Pile { cells, fill: 0 }
    }

    /// The pile of the memory's first `fill` elements: of all where it has fewer.
    pub fn over(cells: &'a mut [T], fill: usize) -> Pile<'a, T>
        ensures { Opened cells.entry fill result }
    {
        let fill = fill.min(cells.len());
        Pile { cells, fill }
    }

    /// The memory, back from the pile, and how much of it is filled.
    pub fn into_parts(self) -> (&'a mut [T], usize)
        ensures { (result.0 ≡ lent self.entry) × (result.1 ≡ fill_of self.entry) }
    {
        let Pile { cells, fill } = self;
        (cells, fill)
    }

    /// How many places are filled.
    pub fn fill(&self) -> usize
        ensures { result ≡ fill_of self.now }
    {
        self.fill
    }

    /// The filled places, from the bottom up.
    pub fn filled(&self) -> &[T]
        ensures { result.now ≡ front self.now }
    {
        &self.cells[..self.fill]
    }

    /// Whether all of the memory is filled.
    pub fn is_full(&self) -> bool
        ensures { result ≡ nat_le (length (memory self.now)) (fill_of self.now) }
    {
        self.room() <= self.fill
    }

    /// How many places there are.
    pub fn room(&self) -> usize
        ensures { result ≡ length (memory self.now) }
    {
        self.cells.len()
    }

    /// Lays an element on top.
    pub fn lay(&mut self, x: T) -> Result<(), Refusal>
        ensures { MatchResult result (λ _. Laid self.old x self.new) (λ e. NoRoom self.old e self.new) }
    {
        if self.is_full() {
            return Err(Refusal::Full);
        }
        // By index: what a slice holds after a write through `get_mut` has no clause.
        self.cells[self.fill] = x;
        self.fill += 1;
        Ok(())
    }

    /// Takes the top off.
    pub fn take(&mut self) -> Result<T, Refusal>
        ensures { MatchResult result (λ x. Taken self.old x self.new) (λ e. NoTop self.old e self.new) }
    {
        let top = self.fill.checked_sub(1).ok_or(Refusal::Absent)?;
        self.fill = top;
        Ok(self.cells[top])
    }

    /// Reads a filled place, counted from the bottom.
    pub fn read(&self, i: usize) -> Result<T, Refusal>
        ensures { MatchResult result (Stands self.now i) (Unfilled self.now i) }
    {
        self.filled().get(i).copied().ok_or(Refusal::Absent)
    }

    /// Changes what stands at a filled place.
    pub fn change(&mut self, i: usize, x: T) -> Result<(), Refusal>
        ensures { MatchResult result (λ _. Changed self.old i x self.new) (λ e. Unfilled self.old i e × (self.new ≡ self.old)) }
    {
        if i >= self.fill {
            return Err(Refusal::Absent);
        }
        // By index, as in `lay`.
        self.cells[i] = x;
        Ok(())
    }

    /// Cuts the pile back to a fill that is not higher.
    pub fn cut(&mut self, to: usize) -> Result<(), Refusal>
        ensures { MatchResult result (λ _. Shortened self.old to self.new) (λ e. TooLow self.old to e self.new) }
    {
        if to > self.fill {
            return Err(Refusal::Absent);
        }
        self.fill = to;
        Ok(())
    }
}
