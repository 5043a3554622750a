//! Cases of tables: a table is run in parts, and what each part tells, what was written, how many values were taken
//! and what all cells hold is compared.
use crate::answers::Answer;
use crate::codes::code_of;
use crate::kinds::{Difference, Kind};
use crate::words::{Flaw, Words};
use host::Host;
use host::lists::ListHost;
use machine::run::run;
use model::table::Entry;
use pile::Pile;
use std::alloc::Global;
use std::fmt::Debug;
use std::str::FromStr;

/// The lines of a case, in their order.
#[derive(Clone, Copy, PartialEq, Eq)]
enum Part {
    Case,
    Entry,
    Cells,
    Waiting,
    Room,
    Run,
    Written,
    Taken,
    Left,
}

impl Part {
    /// Whether the line may stand behind the line `last`.
    fn follows(self, last: Part) -> bool {
        match self {
            Part::Case => last == Part::Left,
            Part::Entry | Part::Cells => matches!(last, Part::Case | Part::Entry),
            Part::Waiting => last == Part::Cells,
            Part::Room => last == Part::Waiting,
            Part::Run | Part::Written => matches!(last, Part::Room | Part::Run),
            Part::Taken => last == Part::Written,
            Part::Left => last == Part::Taken,
        }
    }
}

/// The line that begins with a word.
impl FromStr for Part {
    type Err = Flaw;

    fn from_str(key: &str) -> Result<Part, Flaw> {
        match key {
            "case" => Ok(Part::Case),
            "entry" => Ok(Part::Entry),
            "cells" => Ok(Part::Cells),
            "waiting" => Ok(Part::Waiting),
            "room" => Ok(Part::Room),
            "run" => Ok(Part::Run),
            "written" => Ok(Part::Written),
            "taken" => Ok(Part::Taken),
            "left" => Ok(Part::Left),
            _ => Err(Flaw::NoSuchLine),
        }
    }
}

/// One run: its budget, and what it should tell.
#[derive(Clone, Copy)]
struct Run {
    budget: u32,
    answer: Answer,
}

/// A table, what it is run on, and what should come of it, as far as its lines were read.
#[derive(Drop)]
pub struct TableCase {
    /// The last line that was read.
    last: Part,
    name: String,
    table: Vec<Entry>,
    cells: usize,
    waiting: Vec<i32>,
    room: usize,
    runs: Vec<Run>,
    written: Vec<i32>,
    taken: usize,
    left: Vec<i32>,
}

fn read_entry(mut words: Words<'_>) -> Result<Entry, Flaw> {
    let code = code_of(words.word()?)?;
    let a = words.number()?;
    let b = words.number()?;
    let place = words.number()?;
    words.end()?;
    Ok(Entry { code, a, b, place })
}

fn read_run(mut words: Words<'_>) -> Result<Run, Flaw> {
    let budget = words.number()?;
    let answer = Answer::read(words)?;
    Ok(Run { budget, answer })
}

// That what came is what was expected.
fn same<T: PartialEq + Debug + Copy>(
    heap: Global,
    what: &str,
    expected: T,
    came: T,
) -> Result<(), Difference> {
    if came == expected {
        return Ok(());
    }
    let told = format!(in heap; "{what}: expected {expected:?}, came {came:?}")?;
    Err(Difference::Told(told))
}

impl TableCase {
    /// No case yet.
    pub fn new(heap: Global) -> TableCase {
        TableCase {
            last: Part::Left,
            name: String::new(heap),
            table: Vec::new(heap),
            cells: 0,
            waiting: Vec::new(heap),
            room: 0,
            runs: Vec::new(heap),
            written: Vec::new(heap),
            taken: 0,
            left: Vec::new(heap),
        }
    }

    // Begins a case. All lines but those of entries and runs stand in every case, so they need no clearing.
    fn begin(&mut self, heap: Global, mut words: Words<'_>) -> Result<(), Flaw> {
        self.name = String::from_str(heap, words.word()?)?;
        self.table.clear();
        self.runs.clear();
        words.end()
    }

    fn accept(&mut self, heap: Global, part: Part, words: Words<'_>) -> Result<(), Flaw> {
        match part {
            Part::Case => self.begin(heap, words)?,
            Part::Entry => self.table.push(read_entry(words)?)?,
            Part::Cells => self.cells = words.only()?,
            Part::Waiting => self.waiting = words.values(heap)?,
            Part::Room => self.room = words.only()?,
            Part::Run => self.runs.push(read_run(words)?)?,
            Part::Written => self.written = words.values(heap)?,
            Part::Taken => self.taken = words.only()?,
            Part::Left => self.left = words.values(heap)?,
        }
        Ok(())
    }

    // The runs in turn, up to the first that tells something else. Not by `same`: an answer is shown by `Display`, which
    // lists have not.
    fn check_runs<H: Host>(
        &self,
        heap: Global,
        cells: &mut [i32],
        host: &mut H,
    ) -> Result<(), Difference> {
        let mut pile = Pile::new(cells);
        let mut at: usize = 0;
        let table = self.table.as_slice();
        for (k, part) in self.runs.iter().enumerate() {
            let expected = part.answer;
            let came = Answer::from(run(table, &mut pile, &mut at, host, part.budget));
            if came != expected {
                let number = k + 1;
                let told = format!(in heap; "run {number}: expected {expected}, came {came}")?;
                return Err(Difference::Told(told));
            }
        }
        Ok(())
    }

    // The runs, and what the host has written and taken, over lent memory.
    fn check_host<'a>(
        &self,
        heap: Global,
        waiting: &'a [i32],
        output: &'a mut [i32],
        cells: &mut [i32],
    ) -> Result<(), Difference> {
        let mut host = ListHost::new(waiting, output);
        self.check_runs(heap, cells, &mut host)?;
        same(heap, "written", self.written.as_slice(), host.written())?;
        same(heap, "taken", self.taken, host.taken())
    }
}

impl Kind for TableCase {
    fn name(&self) -> &str {
        self.name.as_str()
    }

    fn is_whole(&self) -> bool {
        self.last == Part::Left
    }

    fn read(&mut self, heap: Global, key: &str, words: Words<'_>) -> Result<(), Flaw> {
        let part: Part = key.parse()?;
        if !part.follows(self.last) {
            return Err(Flaw::Misplaced);
        }
        self.accept(heap, part, words)?;
        self.last = part;
        Ok(())
    }

    fn check(&self, heap: Global) -> Result<(), Difference> {
        let mut cells = vec![in heap; 0; self.cells]?;
        let mut output = vec![in heap; 0; self.room]?;
        let waiting = self.waiting.as_slice();
        self.check_host(heap, waiting, output.as_mut_slice(), cells.as_mut_slice())?;
        same(heap, "left", self.left.as_slice(), cells.as_slice())
    }
}
