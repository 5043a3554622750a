//! What a machine takes values from and puts values to.
#![tactic(auto)]

ghost use Rattle.std.specs.Prelude.{◌≡◌};
ghost use Rattle.host.specs.Meaning.{Meaning, take_answer, after_take, put_answer, after_put, Stays};

pub mod lists;
pub mod tapes;

/// Why a host does not take a value that is put to it.
#[derive(Clone, Copy, PartialEq, Eq, Debug)]
pub enum PutRefusal {
    /// It has no room left.
    Full,
}

/// What a machine takes values from and puts values to.
pub trait Host {
    /// The values that wait, those written so far, and how many more are accepted.
    ghost meaning: { Self → Meaning };

    /// What holds between an earlier moment of a host and a later one, as that it writes to the same memory.
    /// It lets a host that holds lent memory say what its lender gets back. By default it says nothing, so a host
    /// that holds none does not mention it.
    // What runs over a host says in a clause that this stays: it relates two moments, so no field of one host could say it.
    ghost since: { Self → Self → Type 0 } = { λ _ _. Unit {0} };

    /// Removes and answers the first value that waits, or answers `None` and changes nothing where none waits.
    fn take(&mut self) -> Option<i32>
        ensures answer { result ≡ take_answer (meaning self.old) }
        ensures after { meaning self.new ≡ after_take (meaning self.old) }
        ensures stays { Stays since self.old self.new };

    /// Writes `value` behind those written, or refuses it and changes nothing where there is no room.
    fn put(&mut self, value: i32) -> Result<(), PutRefusal>
        ensures answer { result ≡ put_answer (meaning self.old) }
        ensures after { meaning self.new ≡ after_put (meaning self.old) value }
        ensures stays { Stays since self.old self.new };
}
