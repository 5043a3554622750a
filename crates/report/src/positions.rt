//! A place as a line and a column.
ghost use Rattle.std.specs.Prelude.{◌≡◌, suc, take};
ghost use Rattle.report.specs.Positions.{newlines, since_newline};

/// A line and a column, each counted from 1; a column counts bytes.
#[derive(Clone, Copy, PartialEq, Eq, Debug)]
pub struct Position {
    pub line: usize,
    pub column: usize,
}

/// Where in a text a place is; a place past the end is the end.
pub fn locate(text: &[u8], place: usize) -> Position
    ensures line { result.line ≡ suc (newlines (take place text.now)) }
    ensures column { result.column ≡ suc (since_newline 0 (take place text.now)) }
{
    // By a loop: with two chains, one for lines and one for bytes, a long last line took 1.5 times as long.
    let mut line: usize = 1;
    let mut column: usize = 1;
    for byte in &text[..place.min(text.len())] {
        if *byte == b'\n' {
            line += 1;
            column = 1;
        } else {
            column += 1;
        }
    }
    Position { line, column }
}
