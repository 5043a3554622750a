//! Lists the tokens of `script.lpd`, each with its place, or tells why the text cannot be read.
#![tactic(auto)]

ghost use Rattle.std.specs.Prelude.{IfOk};
ghost use Rattle.model.specs.Reading.{read};
ghost use Rattle.lpd.specs.Listing.{Listed};

use anyhow::anyhow;
use model::faults::Fault;
use reader::Reader;
use reader::tokens::{Lexeme, Token};
use report::faults::FaultReport;
use report::spelling::{sign_text, word_text};
use std::process::ExitCode;
use std::{fs, io};

const SCRIPT: &str = "script.lpd";

// A name has only letters, digits and `_`, so it is text; should it not be, its place still tells.
fn show_name(rt: &impl Print, place: usize, name: &[u8]) -> io::Result<()> {
    match std::str::from_utf8(name) {
        Ok(text) => println!(rt; "{place:>5}  name {text}"),
        Err(_) => println!(rt; "{place:>5}  name"),
    }
}

fn show_token(rt: &impl Print, lexeme: Lexeme<'_>) -> io::Result<()> {
    let place = lexeme.place;
    match lexeme.token {
        Token::Word(word) => println!(rt; "{place:>5}  {}", word_text(word)),
        Token::Sign(sign) => println!(rt; "{place:>5}  {}", sign_text(sign)),
        Token::Name(name) => show_name(rt, place, name),
        Token::Number(value) => println!(rt; "{place:>5}  number {value}"),
    }
}

// Shows each token, and tells how many there are or the fault that ends the reading.
// One result in the other: a print that fails ends the program, a fault is what there is to tell. By `loop`: the reader
// is no iterator, since its fault comes again at every further call.
fn show_tokens(rt: &impl Print, text: &[u8]) -> io::Result<Result<usize, Fault>>
    ensures { IfOk result (Listed 0 (read text.now)) }
{
    let mut reader = Reader::new(text);
    let mut count: usize = 0;
    loop {
        match reader.next() {
            Ok(Some(lexeme)) => show_token(rt, lexeme)?,
            Ok(None) => return Ok(Ok(count)),
            Err(placed) => return Ok(Err(Fault::from(placed))),
        }
        count += 1;
    }
}

// The file is read, and `main` ends, as in `cases`: the two programs share no crate for so few lines.
fn list(rt: &HostRuntime) -> anyhow::Result<()> {
    let text = match fs::read(rt, SCRIPT) {
        Ok(text) => text,
        Err(error) => {
            eprintln!(rt; "lpd: cannot read {SCRIPT}: {error}")?;
            return Err(error.into());
        }
    };
    let bytes = text.as_slice();
    match show_tokens(rt, bytes)? {
        Ok(count) => {
            let size = bytes.len();
            println!(rt; "{count} tokens in {size} bytes")?;
            Ok(())
        }
        Err(fault) => {
            let told = FaultReport { text: bytes, fault };
            println!(rt; "{told}")?;
            Err(anyhow!("the script cannot be read"))
        }
    }
}

fn main(rt: HostRuntime) -> ExitCode {
    // A failure has been told, but for one in telling it.
    match list(&rt) {
        Ok(()) => ExitCode::SUCCESS,
        Err(_) => ExitCode::FAILURE,
    }
}
