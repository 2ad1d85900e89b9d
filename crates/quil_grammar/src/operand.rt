//! The reader of operands: a whole number with a sign or without, or an expression that has no memory reference.

ghost use Rattle.std.specs.Prelude.{◌≡◌, ◌<◌, ◌≤◌, ◌^◌, ◌⊎◌, Option, Some, None, List, [], ◌∷◌, IfOk, IfErr, IfSome, IfNone, IsTrue, IsFalse};
ghost use Rattle.std.specs.List.{list_all};
ghost use Rattle.quil_shape.specs.Shape.Shape.{Rule};
ghost use Rattle.quil_grammar.specs.Token.{Token};
ghost use Rattle.quil_grammar.specs.Grammar.{OperandSum, is_digit, is_operator_next, is_whole_number, value_behind, whole_of};
ghost use Rattle.quil_grammar.specs.Literals.{is_plain_next, is_signed_next};
ghost use Rattle.quil_grammar.specs.Frames.{IsOperandRead, StopsFor};

use crate::class::Class;
use crate::reader::{Reader, sign_of};
use crate::stop::Stop;
use crate::token::Token;
use crate::value::value_of;
use quil_tree::{Operand, Place, Sign, Text, Whole};
use std::alloc::Global;

// All bytes are digits.
fn is_digits(text: &[u8]) -> bool
    ensures { result ≡ list_all is_digit text.now }
{
    text.iter().all(u8::is_ascii_digit)
}

// The token is a number written by digits alone.
fn is_whole_number(token: &Token) -> bool
    ensures { result ≡ is_whole_number token.now }
{
    Class::Number.accepts(token.sort()) && is_digits(token.text())
}

// An operator comes next.
fn is_operator_next(tokens: &[Token]) -> bool
    ensures { result ≡ is_operator_next tokens.now }
{
    match tokens.first() {
        Some(token) => {
            Class::Additive.accepts(token.sort())
                || Class::Multiplicative.accepts(token.sort())
                || Class::Caret.accepts(token.sort())
        }
        None => false,
    }
}

// The number at the front of the tokens and what stands behind it, where it is written by digits alone and no operator
// stands there.
fn plain_number<'a, 'b>(tokens: &'b [Token<'a>]) -> Option<(&'b Token<'a>, &'b [Token<'a>])>
    ensures some { IfSome result (λ found. (tokens.now ≡ found.0.now ∷ found.1.now) × IsTrue (is_plain_next tokens.now)) }
    ensures none { IfNone result (IsFalse (is_plain_next tokens.now)) }
{
    let [number, rest @ ..] = tokens else {
        return None;
    };
    if is_whole_number(number) && !is_operator_next(rest) {
        Some((number, rest))
    } else {
        None
    }
}

// The sign at the front of the tokens, such a number behind it, and what stands behind them.
fn signed_number<'a, 'b>(
    tokens: &'b [Token<'a>],
) -> Option<(&'b Token<'a>, &'b Token<'a>, &'b [Token<'a>])>
    ensures some { IfSome result (λ found. (tokens.now ≡ found.0.now ∷ found.1.now ∷ found.2.now) × IsTrue (is_signed_next tokens.now)) }
    ensures none { IfNone result (IsFalse (is_signed_next tokens.now)) }
{
    let [sign, behind @ ..] = tokens else {
        return None;
    };
    if !Class::Sign.accepts(sign.sort()) {
        return None;
    }
    let (number, rest) = plain_number(behind)?;
    Some((sign, number, rest))
}

// The literal of these digits.
fn literal(alloc: Global, place: Place, sign: Option<Sign>, digits: &[u8]) -> Result<Operand, Stop>
    ensures ok { IfOk result (λ o. (o ≡ Operand.Literal place sign (whole_of digits.now)) × (value_behind 0 digits.now < 2 ^ 64)) }
    ensures err { IfErr result (λ e. (e ≡ Stop.OutOfMemory) ⊎ ((e ≡ Stop.TooLarge) × (2 ^ 64 ≤ value_behind 0 digits.now))) }
{
    let Some(value) = value_of(digits) else {
        return Err(Stop::TooLarge);
    };
    let digits = Text::new(alloc, digits)?;
    Ok(Operand::Literal(place, sign, Whole { digits, value }))
}

impl<'a, 'b> Reader<'a, 'b> {
    /// Reads the second operand of an instruction that is no memory reference.
    #[tactic(auto, using(crate::proofs::Literals::plain_stops, crate::proofs::Literals::signed_stops, crate::proofs::Literals::formula_stops, crate::proofs::Literals::formula_read))]
    pub fn value_operand(&mut self, alloc: Global) -> Result<Operand, Stop>
        ensures ok { IfOk result (λ o. IsOperandRead self.old.rest.now self.new.rest.now o) }
        ensures err { IfErr result (λ e. StopsFor e (Rule OperandSum) self.old.rest.now self.new.rest.now) }
    {
        if let Some((number, _)) = plain_number(self.rest) {
            let operand = literal(alloc, number.place(), None, number.text())?;
            self.skip();
            return Ok(operand);
        }
        if let Some((first, number, _)) = signed_number(self.rest) {
            let sign = Some(sign_of(first.sort()));
            let operand = literal(alloc, first.place(), sign, number.text())?;
            self.skip();
            self.skip();
            return Ok(operand);
        }
        let formula = self.formula(alloc, false)?;
        Ok(Operand::Formula(formula))
    }
}
