//! A host over two lent tapes of bytes. A value is five bytes: 86, and then its two's complement, highest byte first.
ghost use Rattle.std.specs.Prelude.{◌≡◌, ◌≤◌, ◌*◌, ◌/◌, length, drop};
ghost use Rattle.host.specs.Meaning.{fresh};

use crate::{Host, PutRefusal};

/// The first byte of each value.
const MARK: u8 = 86;

/// How many bytes a value takes.
const WIDTH: usize = 5;

// Not one generic host with `ListHost`: they share `new`, `taken` and their counts, and a trait of how a value is read
// and written, with its laws, is longer than that.
/// Takes values from one lent tape, and puts values onto another.
#[derive(Drop)]
pub struct TapeHost<'a> {
    source: &'a [u8],
    /// How many values, of five bytes each, were taken from the front of `source`.
    taken: usize,
    // Not a `Pile`: of a loan in a struct in a struct it is not proved what goes back to the lender.
    sink: &'a mut [u8],
    /// How many values, of five bytes each, were written to the front of `sink`.
    filled: usize,
    ghost within: { 5 * taken ≤ length source.now },
    ghost fits: { 5 * filled ≤ length sink.now },
}

impl Host for TapeHost<'_> {
    ghost use Rattle.host.specs.Tapes.{tape_meaning, TapeSince};

    ghost meaning = { tape_meaning };

    ghost since = { TapeSince };

    fn take(&mut self) -> Option<i32> {
        let &[MARK, a, b, c, d, ..] = &self.source[WIDTH * self.taken..] else {
            return None;
        };
        self.taken += 1;
        Some(i32::from_be_bytes([a, b, c, d]))
    }

    fn put(&mut self, value: i32) -> Result<(), PutRefusal> {
        let at = WIDTH * self.filled;
        if self.sink.len() - at < WIDTH {
            return Err(PutRefusal::Full);
        }
        let [a, b, c, d] = value.to_be_bytes();
        self.sink[at..at + WIDTH].copy_from_slice(&[MARK, a, b, c, d]);
        self.filled += 1;
        Ok(())
    }
}

impl<'a> TapeHost<'a> {
    ghost use Rattle.host.specs.Tapes.{tape_meaning, tape_source, tape_taken, tape_sink, tape_written, values_of, Marked, TapeOver};

    /// A host over these tapes, from which nothing is taken and onto which nothing is written yet.
    pub fn new(source: &'a [u8], sink: &'a mut [u8]) -> TapeHost<'a>
        ensures means { tape_meaning result ≡ fresh (values_of source.now) (length sink.old / 5) }
        ensures marks { Marked result }
        ensures count { tape_taken result ≡ 0 }
        ensures reads { tape_source result ≡ source.now }
        ensures memory { TapeOver sink.entry result }
        ensures holds { tape_sink result ≡ sink.old }
    {
        TapeHost {
            source,
            taken: 0,
            sink,
            filled: 0,
        }
    }

    /// How many values were taken.
    pub fn taken(&self) -> usize
        ensures count { result ≡ tape_taken self.now }
        ensures waits { (tape_meaning self.now).waiting ≡ values_of (drop (5 * result) (tape_source self.now)) }
    {
        self.taken
    }

    /// The bytes written so far.
    pub fn written(&self) -> &[u8]
        ensures bytes { result.now ≡ tape_written self.now }
        ensures means { Marked self.now → values_of result.now ≡ (tape_meaning self.now).written }
    {
        &self.sink[..WIDTH * self.filled]
    }
}
