//! Expression, simple expression, term and factor.
ghost use Rattle.std.specs.Prelude.{◌≡◌, true, ◌⊎◌};
ghost use Rattle.std.proofs.Math.Option.{some};
ghost use Rattle.model.specs.Ahead.{is_sign};
ghost use Rattle.model.specs.declared.tokens.Sign.TheVariants as Signs;
ghost use Rattle.model.specs.declared.tokens.Word.TheVariants as Words;
ghost use Rattle.model.specs.Tokens as Tokens;
ghost use Rattle.cursor.specs.Rests.{ahead_of};
ghost use Rattle.expressions.specs.Parts as Parts;
ghost use Rattle.expressions.specs.Parts.{growing, whole};
ghost use Rattle.expressions.specs.Rows.{row_of, part_of};
ghost use Rattle.expressions.specs.Says.{Translates};

use super::Translation;
use super::operators::{Row, is_inteiro};
use model::faults::{Fault, MeaningFault};
use model::ops::Op;
use model::script::Ty;
use model::tokens::{Sign, Word};
use reader::tokens::Token;

// At most 64 levels may be open.
const DEEPEST: usize = 64;

impl Translation<'_, '_> {
    /// An expression, where `depth` levels are open around it.
    #[cycle(descent)]
    pub fn expression(&mut self, depth: usize) -> Result<Ty, Fault>
        ensures { Translates Parts.expression (whole Parts.expression) self.old depth self.new result }
    {
        let left = self.row(Row::Terms, depth)?;
        let Some(operator) = self.cursor.comparing() else {
            return Ok(left);
        };
        let place = self.cursor.entry_place();
        self.cursor.advance()?;
        let right = self.row(Row::Terms, depth)?;
        self.join(operator, left, right, place)
    }

    // A row of terms or of factors.
    #[cycle(descent)]
    fn row(&mut self, row: Row, depth: usize) -> Result<Ty, Fault>
        ensures { Translates (row_of row) (whole (row_of row)) self.old depth self.new result }
    {
        let mut left = self.first(row, depth)?;
        while let Some(operator) = row.operator(self.cursor) {
            let place = self.cursor.entry_place();
            self.cursor.advance()?;
            let right = self.part(row, depth)?;
            left = self.join(operator, left, right, place)?;
        }
        Ok(left)
    }

    // The part that the row begins with, and its sign.
    #[cycle(descent)]
    fn first(&mut self, row: Row, depth: usize) -> Result<Ty, Fault>
        ensures { Translates (row_of row) (growing (row_of row)) self.old depth self.new result }
    {
        match row {
            Row::Terms => self.lead(depth),
            Row::Factors => self.factor(depth),
        }
    }

    // A part behind an operator of the row.
    #[cycle(descent)]
    fn part(&mut self, row: Row, depth: usize) -> Result<Ty, Fault>
        ensures { Translates (part_of row) (whole (part_of row)) self.old depth self.new result }
    {
        match row {
            Row::Terms => self.row(Row::Factors, depth),
            Row::Factors => self.factor(depth),
        }
    }

    // The first term of a simple expression, with its sign.
    #[cycle(descent)]
    fn lead(&mut self, depth: usize) -> Result<Ty, Fault>
        ensures { Translates Parts.simple (growing Parts.simple) self.old depth self.new result }
    {
        // Two tests, and no `match`: each gives `signed` what it asks of the token ahead.
        if self.cursor.is_sign(Sign::Plus) {
            return self.signed(Sign::Plus, depth);
        }
        if self.cursor.is_sign(Sign::Minus) {
            return self.signed(Sign::Minus, depth);
        }
        self.row(Row::Factors, depth)
    }

    // A first term behind its sign.
    #[cycle(descent)]
    fn signed(&mut self, sign: Sign, depth: usize) -> Result<Ty, Fault>
        requires is { is_sign sign (ahead_of self.old.cursor.now) ≡ true }
        requires one { (sign ≡ Signs.Plus) ⊎ (sign ≡ Signs.Minus) }
        ensures { Translates Parts.simple (growing Parts.simple) self.old depth self.new result }
    {
        let place = self.cursor.entry_place();
        self.cursor.advance()?;
        let ty = self.row(Row::Factors, depth)?;
        if !is_inteiro(ty) {
            return Err(self.cursor.wrong(MeaningFault::WrongType));
        }
        if sign == Sign::Minus {
            self.lay(Op::Inv, 0, place);
        }
        Ok(ty)
    }

    #[cycle(descent)]
    fn factor(&mut self, depth: usize) -> Result<Ty, Fault>
        ensures { Translates Parts.factor (whole Parts.factor) self.old depth self.new result }
    {
        match self.cursor.token() {
            Some(Token::Name(name)) => self.use_of(name),
            Some(Token::Number(value)) => self.constant(value, Ty::Inteiro),
            Some(Token::Word(Word::Verdadeiro)) => self.constant(1, Ty::Booleano),
            Some(Token::Word(Word::Falso)) => self.constant(0, Ty::Booleano),
            Some(Token::Word(Word::Nao)) => self.denial(depth),
            Some(Token::Sign(Sign::OpenBracket)) => self.bracket(depth),
            _ => Err(self.cursor.unexpected()),
        }
    }

    // An expression in brackets.
    #[cycle(descent)]
    fn bracket(&mut self, depth: usize) -> Result<Ty, Fault>
        requires { ahead_of self.old.cursor.now ≡ some (Tokens.sign Signs.OpenBracket) }
        ensures { Translates Parts.factor (whole Parts.factor) self.old depth self.new result }
    {
        if depth >= DEEPEST {
            return Err(self.cursor.too_deep());
        }
        self.cursor.advance()?;
        let ty = self.expression(depth + 1)?;
        // Written out, as in `commands`: the contract of a method for it would have to say both ways out.
        if !self.cursor.is_sign(Sign::CloseBracket) {
            return Err(self.cursor.unexpected());
        }
        self.cursor.advance()?;
        Ok(ty)
    }

    // A factor behind `nao`.
    // Apart from `bracket`: behind the check of the levels they share `advance` and the answer alone.
    #[cycle(descent)]
    fn denial(&mut self, depth: usize) -> Result<Ty, Fault>
        requires { ahead_of self.old.cursor.now ≡ some (Tokens.word Words.Nao) }
        ensures { Translates Parts.factor (whole Parts.factor) self.old depth self.new result }
    {
        if depth >= DEEPEST {
            return Err(self.cursor.too_deep());
        }
        let place = self.cursor.entry_place();
        self.cursor.advance()?;
        let ty = self.factor(depth + 1)?;
        if is_inteiro(ty) {
            return Err(self.cursor.wrong(MeaningFault::WrongType));
        }
        self.lay(Op::Neg, 0, place);
        Ok(ty)
    }
}
