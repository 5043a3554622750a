//! Runs the cases of `tables.cases`, tells each that differs, and how many agree.
#![tactic(auto)]

mod answers;
mod codes;
mod kinds;
mod tables;
mod words;

use crate::kinds::{Difference, Kind};
use crate::tables::TableCase;
use crate::words::{Flaw, Words};
use anyhow::anyhow;
use std::alloc::Global;
use std::fs;
use std::process::ExitCode;

const TABLES: &str = "tables.cases";

/// How many cases there are, and how many of them agree.
#[derive(Clone, Copy)]
struct Tally {
    cases: u64,
    agree: u64,
}

/// What comes of a line of a case file.
// Not `Option<Result<(), String>>`, which would not show what its `None` and its `Ok` are.
#[derive(Drop)]
enum Outcome {
    /// No case is whole with it.
    GoesOn,
    /// The case that is whole with it agrees.
    Agrees,
    /// That case differs, as the words tell.
    Differs(String),
}

// Reads a line, and runs the case that is whole with it. Blank lines and comments belong to no case.
fn read_line<K: Kind>(heap: Global, case: &mut K, line: &str) -> Result<Outcome, Flaw> {
    let mut words = Words::of(line);
    let Some(key) = words.next() else {
        return Ok(Outcome::GoesOn);
    };
    if key.starts_with('#') {
        return Ok(Outcome::GoesOn);
    }
    case.read(heap, key, words)?;
    if !case.is_whole() {
        return Ok(Outcome::GoesOn);
    }
    match case.check(heap) {
        Ok(()) => Ok(Outcome::Agrees),
        Err(Difference::Told(difference)) => Ok(Outcome::Differs(difference)),
        Err(Difference::Memory) => Err(Flaw::Memory),
    }
}

impl Tally {
    // One case more, that agrees or does not.
    fn count(&mut self, agrees: bool) {
        self.cases = self.cases.saturating_add(1);
        if agrees {
            self.agree = self.agree.saturating_add(1);
        }
    }
}

fn tell_flaw(rt: &impl Eprint, file: &str, number: usize, flaw: Flaw) -> anyhow::Result<()> {
    eprintln!(rt; "cases: {file}, line {number}: {flaw}")?;
    Err(anyhow!("the cases cannot be read"))
}

// Runs all cases of a text.
fn check_text<K: Kind>(
    rt: &HostRuntime,
    file: &str,
    text: &str,
    case: &mut K,
) -> anyhow::Result<Tally> {
    let mut tally = Tally { cases: 0, agree: 0 };
    for (k, line) in text.lines().enumerate() {
        match read_line(rt.alloc(), case, line) {
            Ok(Outcome::GoesOn) => {}
            Ok(Outcome::Agrees) => tally.count(true),
            Ok(Outcome::Differs(difference)) => {
                let name = case.name();
                println!(rt; "case {name}, {difference}")?;
                tally.count(false);
            }
            Err(flaw) => tell_flaw(rt, file, k + 1, flaw)?,
        }
    }
    if !case.is_whole() {
        tell_flaw(rt, file, text.lines().count(), Flaw::Unfinished)?;
    }
    Ok(tally)
}

// The file is read, and `main` ends, as in `lpd`: the two programs share no crate for so few lines.
fn check_tables(rt: &HostRuntime) -> anyhow::Result<()> {
    let text = match fs::read_to_string(rt, TABLES) {
        Ok(text) => text,
        Err(error) => {
            eprintln!(rt; "cases: cannot read {TABLES}: {error}")?;
            return Err(error.into());
        }
    };
    let mut case = TableCase::new(rt.alloc());
    let Tally { cases, agree } = check_text(rt, TABLES, text.as_str(), &mut case)?;
    println!(rt; "{cases} cases of tables, {agree} agree")?;
    if agree != cases {
        return Err(anyhow!("a case differs"));
    }
    Ok(())
}

fn main(rt: HostRuntime) -> ExitCode {
    // A failure has been told, but for one in telling it.
    match check_tables(&rt) {
        Ok(()) => ExitCode::SUCCESS,
        Err(_) => ExitCode::FAILURE,
    }
}
