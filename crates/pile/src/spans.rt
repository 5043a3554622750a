//! What is done to a span of a pile: to `n` places from one on.
ghost use Rattle.std.specs.Prelude.{◌≡◌, ◌+◌, ◌≤◌, length, MatchResult};
ghost use Rattle.pile.specs.Piles.{blanked, LaidTimes, NoRoomFor, Lifted, NoLift, Lowered, NoLowering, Replaced, Updated};

use crate::{Pile, Refusal};

impl<'a, T: Copy> Pile<'a, T> {
    /// Lays `x` so many times.
    pub fn lay_times(&mut self, x: T, times: usize) -> Result<(), Refusal>
        ensures { MatchResult result (λ _. LaidTimes self.old x times self.new) (λ e. NoRoomFor self.old times e self.new) }
    {
        let fill = self.fill;
        if self.room() - fill < times {
            return Err(Refusal::Full);
        }
        blank(self.cells, fill, times, x);
        self.fill = fill + times;
        Ok(())
    }

    /// Lays the `n` elements from `from` on once more, on top, and leaves `x` where they stood.
    pub fn lift(&mut self, from: usize, n: usize, x: T) -> Result<(), Refusal>
        ensures { MatchResult result (λ _. Lifted self.old from n x self.new) (λ e. NoLift self.old from n e self.new) }
    {
        let fill = self.fill;
        if from > fill || fill - from < n {
            return Err(Refusal::Absent);
        }
        if self.room() - fill < n {
            return Err(Refusal::Full);
        }
        self.cells.copy_within(from..from + n, fill);
        blank(self.cells, from, n, x);
        self.fill = fill + n;
        Ok(())
    }

    /// Takes the top `n` off, and lays them down from `to` on, where they must lie below what is left.
    pub fn lower(&mut self, n: usize, to: usize) -> Result<(), Refusal>
        ensures { MatchResult result (λ _. Lowered self.old n to self.new) (λ e. NoLowering self.old n to e self.new) }
    {
        let fill = self.fill;
        let left = fill.checked_sub(n).ok_or(Refusal::Absent)?;
        if to > left || left - to < n {
            return Err(Refusal::Absent);
        }
        self.cells.copy_within(left..fill, to);
        self.fill = left;
        Ok(())
    }

    /// Puts what `f` makes of it in the place of each element from `from` on, up to the top.
    ///
    /// Only the crates of this repository call it. They owe what every closure is owed: that `f` may be called at any
    /// element. Whatever `f` is, each of these places then holds what `f` may make of what stood there, and all else is
    /// as it was. Where `f` makes one element of each, as a function does, this says which one.
    pub fn update<F: Fn(T) -> T + Drop>(&mut self, from: usize, f: F)
        requires { F.IsAlwaysCallable f }
        ensures each { Replaced self.old from (F.post f) self.new }
        ensures updated { (g : T → T) → ((x y : T) → F.post f x y → y ≡ g x) → Updated self.old from g self.new }
    {
        let fill = self.fill;
        let span = &mut self.cells[from.min(fill)..fill];
        for cell in span.iter_mut() {
            *cell = f(*cell);
        }
    }
}

/// Writes `x` to the `n` places from `from` on.
fn blank<T: Copy>(cells: &mut [T], from: usize, n: usize, x: T)
    requires { from + n ≤ length cells.old }
    ensures { cells.new ≡ blanked cells.old from n x }
{
    // Not by `fill`: it asks that a clone of `x` cannot fail, which no caller has said so far.
    let span = &mut cells[from..from + n];
    for cell in span.iter_mut() {
        *cell = x;
    }
}
