//! Which record a name finds, and whether a block admits a new name.
ghost use Rattle.std.specs.Prelude.{◌≡◌, Bool, List, ◌∷◌};
ghost use Rattle.model.specs.Reading.{same};
ghost use Rattle.model.specs.Names.{visible, records};
ghost use Rattle.model.specs.Heads.{declares};
ghost use Rattle.model.specs.Judged.{Judged};
ghost use Rattle.scopes.specs.Records.{text_of, records_of, records_from, room_of, level_of, spelling, newest};
ghost use Rattle.scopes.specs.Levels.{Level, scopes_of, laid_of_all, Holds, Calm, Matches, decided, told, AtPlace};

use super::{Mark, Scopes};
use crate::names::Name;
use model::faults::{Cause, Fault, MeaningFault, RoomFault};

// A script has at most 4,096 cells.
const CELLS: usize = 4096;

// Whether the record's name is spelled so. The part is cut by two bounds: with `get` and `unwrap_or` a search took 1.3
// times as long.
fn is_spelled(text: &[u8], known: &Name, name: &[u8]) -> bool
    ensures { result ≡ same name.now (spelling text.now known.now) }
{
    let from = text.len().min(usize::from(known.place));
    let to = text.len().min(from + usize::from(known.length));
    name == &text[from..to]
}

impl<'a> Scopes<'a> {
    // The newest record from the one at `from` on whose name is spelled so.
    fn newest(&self, from: usize, name: &[u8]) -> Option<Name>
        ensures { result ≡ newest (text_of self.now) name.now (records_from from self.now) }
    {
        let records = self.records.filled().get(from..)?;
        records
            .iter()
            .rev()
            .find(|known| is_spelled(self.text, known, name))
            .copied()
    }

    /// The record of the innermost declaration of a name.
    pub fn look_up(&self, name: &[u8]) -> Option<Name>
        ensures is { result ≡ newest (text_of self.now) name.now (records_of self.now) }
        ensures matches { (over : Bool) (os : List Level) → Holds self.now over os → Calm os → Matches (laid_of_all os) over result (visible name.now (scopes_of os)) }
    {
        self.newest(0, name)
    }

    /// Whether the innermost block, whose names begin at the mark, admits a new name at this place. `cell` is one more
    /// than the number of the cell that the name takes, or 0 if it takes none.
    //
    // A number, and no `Option`: the judge's own test takes the same one, and 0 passes it.
    pub fn admits(&self, block: &Mark, name: &[u8], place: usize, cell: usize) -> Result<(), Fault>
        ensures declares { (over : Bool) (o : Level) (os : List Level) → Holds self.now over (o ∷ os) → level_of block.now ≡ records (scopes_of os) → (j : Judged) → declares (room_of self.now) (scopes_of os) o.scope name.now cell j ≡ told j result }
        ensures at { AtPlace place result }
    {
        self.admitted(block.level, name, cell)
            .map_err(|cause| Fault::at(cause, place))
    }

    // The same without the place, for the block whose names begin at `level`.
    fn admitted(&self, level: usize, name: &[u8], cell: usize) -> Result<(), Cause>
        ensures { (over : Bool) (o : Level) (os : List Level) → Holds self.now over (o ∷ os) → level ≡ records (scopes_of os) → (j : Judged) → declares (room_of self.now) (scopes_of os) o.scope name.now cell j ≡ decided j result }
    {
        if self.newest(level, name).is_some() {
            return Err(Cause::from(MeaningFault::Twice));
        }
        if self.records.is_full() {
            return Err(Cause::from(RoomFault::NamesFull));
        }
        if cell > CELLS {
            return Err(Cause::from(RoomFault::ManyCells));
        }
        Ok(())
    }
}
