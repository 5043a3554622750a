//! The class of each byte.
ghost use Rattle.std.specs.Prelude.{◌≡◌, T};
ghost use Rattle.model.specs.Reading.{digit, name_byte};
ghost use Rattle.reader.specs.Classes.{Classed, every, right};

#[derive(Clone, Copy, PartialEq, Eq, Debug)]
pub(crate) enum Class {
    Blank,
    Brace,
    Letter,
    Digit,
    Underscore,
    Other,
}

// Short names, for the table alone.
const B: Class = Class::Blank;

const C: Class = Class::Brace;

const L: Class = Class::Letter;

const D: Class = Class::Digit;

const U: Class = Class::Underscore;

const X: Class = Class::Other;

// The class of each byte, in order.
// Stays a table: with a `match` on ranges a text was read 1.3 times slower (4.4 MB in 12.0 ms, not 9.3).
const CLASS: [Class; 256] = [
    // 0 to 15
    X, X, X, X, X, X, X, X, X, B, B, X, X, B, X, X,
    // 16 to 31
    X, X, X, X, X, X, X, X, X, X, X, X, X, X, X, X,
    // 32 to 47
    B, X, X, X, X, X, X, X, X, X, X, X, X, X, X, X,
    // 48 to 63
    D, D, D, D, D, D, D, D, D, D, X, X, X, X, X, X,
    // 64 to 79
    X, L, L, L, L, L, L, L, L, L, L, L, L, L, L, L,
    // 80 to 95
    L, L, L, L, L, L, L, L, L, L, L, X, X, X, X, U,
    // 96 to 111
    X, L, L, L, L, L, L, L, L, L, L, L, L, L, L, L,
    // 112 to 127
    L, L, L, L, L, L, L, L, L, L, L, C, X, X, X, X,
    // 128 to 143
    X, X, X, X, X, X, X, X, X, X, X, X, X, X, X, X,
    // 144 to 159
    X, X, X, X, X, X, X, X, X, X, X, X, X, X, X, X,
    // 160 to 175
    X, X, X, X, X, X, X, X, X, X, X, X, X, X, X, X,
    // 176 to 191
    X, X, X, X, X, X, X, X, X, X, X, X, X, X, X, X,
    // 192 to 207
    X, X, X, X, X, X, X, X, X, X, X, X, X, X, X, X,
    // 208 to 223
    X, X, X, X, X, X, X, X, X, X, X, X, X, X, X, X,
    // 224 to 239
    X, X, X, X, X, X, X, X, X, X, X, X, X, X, X, X,
    // 240 to 255
    X, X, X, X, X, X, X, X, X, X, X, X, X, X, X, X,
];

// The entry of a table whose every entry follows the rule.
fn entry(table: &[Class; 256], b: u8) -> Class
    requires { T (every right 0 table.now) }
    ensures { Classed b result }
{
    table[b as usize]
}

// The class of a byte. The rule is proved once, over all entries of the table.
pub(crate) fn class_of(b: u8) -> Class
    ensures { Classed b result }
{
    entry(&CLASS, b)
}

// Whether a byte may follow the first letter of a name.
pub(crate) fn is_name_byte(b: u8) -> bool
    ensures { result ≡ name_byte b }
{
    matches!(
        class_of(b),
        Class::Letter | Class::Digit | Class::Underscore
    )
}

pub(crate) fn is_digit(b: u8) -> bool
    ensures { result ≡ digit b }
{
    class_of(b) == Class::Digit
}
