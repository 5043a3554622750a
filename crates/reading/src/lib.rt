//! Reading: laws about the definition of `model`, in terms of gaps, spellings and longest pieces.
#![tactic(auto)]

ghost use Rattle.reading.specs.Laws.{ExactlyByTheRules, NothingLost, EveryTokenIsLongest};
ghost use Rattle.reading.specs.Laws.{ReservedExactlyWhenListed, OneToken, SpelledLooks};
ghost use Rattle.reading.specs.Examples.{ExamplesStand};

/// A text is read as a stream of tokens exactly when the rules say so.
pub fn text_is_read_exactly_by_the_rules()
    ensures { ExactlyByTheRules }
{}

/// The tokens with the gaps between them are the text, in order, up to its end or its first fault.
pub fn nothing_of_the_text_is_lost()
    ensures { NothingLost }
{}

/// Each token stands at its place, and no longer front of the text there looks like a token.
pub fn every_token_is_the_longest()
    ensures { EveryTokenIsLongest }
{}

/// A word is a reserved word exactly when it is in the list, and else a name.
pub fn words_are_reserved_exactly_when_listed()
    ensures { ReservedExactlyWhenListed }
{}

/// Bytes spell one token at most, and those that spell one look like one.
pub fn bytes_spell_one_token()
    ensures { OneToken × SpelledLooks }
{}

/// Worked examples: texts and what they are read as, bytes and what they spell.
pub fn worked_readings_stand()
    ensures { ExamplesStand }
{}
