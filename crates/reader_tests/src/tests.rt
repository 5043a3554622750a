use model::faults::{Cause, Fault, GrammarFault, MeaningFault, Placed, ReaderFault, RoomFault};
use reader::Reader;
use reader::tokens::{Lexeme, Token};
use report::faults::{FaultReport, cause_words};
use report::spelling::{sign_text, word_text};
use std::test::Fail;

type Read<'a> = Result<Option<Lexeme<'a>>, Placed<ReaderFault>>;

fn name<'a>(spelling: &'a [u8], place: usize) -> Read<'a> {
    let token = Token::Name(spelling);
    Ok(Some(Lexeme { token, place }))
}

fn number<'a>(worth: u32, place: usize) -> Read<'a> {
    let token = Token::Number(worth);
    Ok(Some(Lexeme { token, place }))
}

// How the word or the sign that was read is spelled, and its place.
fn fixed(read: Read<'_>) -> Option<(&'static str, usize)> {
    let lexeme = read.ok()??;
    match lexeme.token {
        Token::Word(word) => Some((word_text(word), lexeme.place)),
        Token::Sign(sign) => Some((sign_text(sign), lexeme.place)),
        _ => None,
    }
}

// The number and the place of the fault that was read.
fn fault(read: Read<'_>) -> Option<(u8, usize)> {
    read.err()
        .map(|placed| (placed.fault.number(), placed.place))
}

#[test]
fn a_number_ends_where_its_digits_do(rt: HostRuntime) {
    let mut reader = Reader::new(b"12ab 3senao 1_0");
    assert_eq!(rt; reader.next(), number(12, 0));
    assert_eq!(rt; reader.next(), name(b"ab", 2));
    assert_eq!(rt; reader.next(), number(3, 5));
    assert_eq!(rt; fixed(reader.next()), Some(("senao", 6)));
    assert_eq!(rt; reader.next(), number(1, 12));
    assert_eq!(rt; fault(reader.next()), Some((10, 13)));
    assert_eq!(rt; fault(reader.next()), Some((10, 13)));
}

#[test]
fn the_longest_sign_is_taken(rt: HostRuntime) {
    let mut reader = Reader::new(b"<=<>=:=: !=!");
    assert_eq!(rt; fixed(reader.next()), Some(("<=", 0)));
    assert_eq!(rt; fixed(reader.next()), Some(("<", 2)));
    assert_eq!(rt; fixed(reader.next()), Some((">=", 3)));
    assert_eq!(rt; fixed(reader.next()), Some((":=", 5)));
    assert_eq!(rt; fixed(reader.next()), Some((":", 7)));
    assert_eq!(rt; fixed(reader.next()), Some(("!=", 9)));
    assert_eq!(rt; fault(reader.next()), Some((10, 11)));
}

#[test]
fn comments_do_not_nest(rt: HostRuntime) {
    let mut reader = Reader::new(b" { a { b } e }");
    assert_eq!(rt; fixed(reader.next()), Some(("e", 11)));
    assert_eq!(rt; fault(reader.next()), Some((10, 13)));
}

#[test]
fn an_open_comment_is_told_at_its_brace(rt: HostRuntime) {
    let mut reader = Reader::new(b"fim\n\t{ e");
    assert_eq!(rt; fixed(reader.next()), Some(("fim", 0)));
    assert_eq!(rt; fault(reader.next()), Some((11, 5)));
}

#[test]
fn numbers_have_any_number_of_leading_zeros(rt: HostRuntime) {
    let mut reader = Reader::new(b"00000000000000000000000000000002147483647 2147483648");
    assert_eq!(rt; reader.next(), number(2147483647, 0));
    assert_eq!(rt; fault(reader.next()), Some((12, 42)));
}

#[test]
fn names_have_thirty_bytes_at_most(rt: HostRuntime) {
    let mut reader = Reader::new(b"abcdefghij_bcdefghij0123456789 abcdefghij_bcdefghij01234567890");
    assert_eq!(rt; reader.next(), name(b"abcdefghij_bcdefghij0123456789", 0));
    assert_eq!(rt; fault(reader.next()), Some((13, 31)));
}

#[test]
fn case_counts_and_blanks_do_not(rt: HostRuntime) {
    let mut reader = Reader::new(b"\r\n Se se {}seE  ");
    assert_eq!(rt; reader.next(), name(b"Se", 3));
    assert_eq!(rt; fixed(reader.next()), Some(("se", 6)));
    assert_eq!(rt; reader.next(), name(b"seE", 11));
    assert_eq!(rt; reader.next(), Ok(None));
    assert_eq!(rt; reader.next(), Ok(None));
}

#[test]
fn a_fault_is_shown_with_line_and_column(rt: HostRuntime) -> Result<(), Fail> {
    let text = b"programa p;\n  x := 2147483648";
    let fault = Fault::from(Placed {
        fault: ReaderFault::LargeNumber,
        place: 19,
    });
    let told = FaultReport { text, fault };
    let shown = format!(in rt.alloc(); "{told}")?;
    assert_eq!(rt;
        shown.as_str(),
        "fault 12, line 2, column 8: the number is above 2147483647"
    );
    Ok(())
}

#[test]
fn each_fault_has_its_words(rt: HostRuntime) {
    let told = [
        (Cause::Reader(ReaderFault::NoToken), "no token begins here"),
        (
            Cause::Reader(ReaderFault::OpenComment),
            "this comment is never closed",
        ),
        (
            Cause::Reader(ReaderFault::LargeNumber),
            "the number is above 2147483647",
        ),
        (
            Cause::Reader(ReaderFault::LongName),
            "the name has more than 30 bytes",
        ),
        (
            Cause::Grammar(GrammarFault::NotAdmitted),
            "this may not stand here",
        ),
        (
            Cause::Grammar(GrammarFault::TextEnded),
            "the text ended too early",
        ),
        (
            Cause::Grammar(GrammarFault::TooDeep),
            "more than 64 levels are nested",
        ),
        (
            Cause::Meaning(MeaningFault::NotVisible),
            "no such name is visible here",
        ),
        (
            Cause::Meaning(MeaningFault::Twice),
            "the block has this name already",
        ),
        (
            Cause::Meaning(MeaningFault::WrongKind),
            "the name stands for something else than is wanted here",
        ),
        (
            Cause::Meaning(MeaningFault::WrongType),
            "the types do not agree",
        ),
        (
            Cause::Room(RoomFault::LongText),
            "the text has more than 65535 bytes",
        ),
        (
            Cause::Room(RoomFault::NamesFull),
            "there is no record left for this name",
        ),
        (
            Cause::Room(RoomFault::TableFull),
            "the table is too short for the script",
        ),
        (
            Cause::Room(RoomFault::ManyCells),
            "the script wants more than 4096 cells",
        ),
    ];
    for (cause, words) in told {
        assert_eq!(rt; cause_words(cause), words);
    }
}
