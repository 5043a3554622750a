//! A host of one's own, that gives what it means and the two methods, and no more.
ghost use Rattle.host_tests.specs.Counting.{count_meaning};

use host::{Host, PutRefusal};

/// Gives the numbers from `next` down to 1, and keeps one value.
#[derive(Drop)]
pub struct Countdown {
    pub next: u8,
    pub last: Option<i32>,
}

impl Host for Countdown {
    ghost meaning = { count_meaning };

    fn take(&mut self) -> Option<i32> {
        let left = self.next.checked_sub(1)?;
        let value = self.next.into();
        self.next = left;
        Some(value)
    }

    fn put(&mut self, value: i32) -> Result<(), PutRefusal> {
        if self.last.is_some() {
            return Err(PutRefusal::Full);
        }
        self.last = Some(value);
        Ok(())
    }
}
