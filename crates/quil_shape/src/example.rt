//! A reader of nested lists of numbers, as `[1, [2, 300 .. 400], []]`, written by hand and proved by the laws.
//! A number alone is below 256; the ends of a range may be any.

ghost use Rattle.std.specs.Prelude.{◌≡◌, ◌≢◌, ◌+◌, ◌^◌, ◌<◌, ◌≤◌, [], ◌∷◌, ◌++◌, List, IsTrue, IfOk, IfErr, OnOk, MatchBool, slice_get, length, drop, true, false};
ghost use Rattle.std.specs.Option.{option_map};
ghost use Rattle.quil_shape.specs.Shape.{Shape};
ghost use Rattle.quil_shape.specs.Shape.Shape.{Rule, Seq, One, Emit};
ghost use Rattle.quil_shape.specs.Condition.{is_decided_by_one_token};
ghost use Rattle.quil_shape.specs.NestedReader.{Moves, pending_in, IsTold, IsTrueFault, Tells, fault_at};
ghost use Rattle.quil_shape.specs.Verdict.{Verdict, IsVerdict, IsReading};
ghost use Rattle.quil_shape.specs.Nested.{nested, tables, Nest, Item, Class, Name, list, number, range_end, number_next, opens_item, pending};
ghost use Rattle.quil_shape.specs.declared.example.Stop.TheVariants.{OutOfMemory};

use std::alloc::{AllocFailed, Global};

/// A token of the example.
#[derive(Clone, Copy, Debug, PartialEq, Eq)]
pub enum Token {
    /// `[`
    Open,
    /// `]`
    Close,
    /// `,`
    Comma,
    /// `..`
    Dots,
    /// A number.
    Number(u32),
}

/// What reading makes: a list between `Begin` and `End`, a number, and `Range` behind the two numbers of a range.
#[derive(Clone, Copy, Debug, PartialEq, Eq)]
pub enum Step {
    /// A list begins.
    Begin,
    /// A number.
    Value(u32),
    /// The two numbers before are the ends of a range.
    Range,
    /// A list ends.
    End,
}

/// One token decides each choice in the grammar of nested lists.
#[tactic(auto, unfolding(crate::specs::Nested::nested, crate::specs::Nested::tables))]
pub fn nested_is_decided()
    ensures { IsTrue (is_decided_by_one_token nested tables list) }
{}

/// Why there is no list, with the place of the token.
#[derive(Clone, Copy, Debug, PartialEq, Eq)]
pub enum Fault {
    /// There is no memory for the steps.
    OutOfMemory,
    /// No list goes on with the token, or the tokens end too early.
    Unexpected(usize),
    /// A number alone is 256 or more.
    TooLarge(usize),
}

/// Why reading stopped; the reader is left at the token.
#[derive(Clone, Copy, Debug, PartialEq, Eq)]
enum Stop {
    OutOfMemory,
    Unexpected,
    TooLarge,
}

impl<T: Drop> From<AllocFailed<T>> for Stop {
    ghost from_gives = { λ _ e. e ≡ OutOfMemory };

    fn from(_failed: AllocFailed<T>) -> Stop {
        Stop::OutOfMemory
    }
}

impl Stop {
    // The fault at a place.
    fn at(self, place: usize) -> Fault
        ensures { result ≡ fault_at place self }
    {
        match self {
            Stop::OutOfMemory => Fault::OutOfMemory,
            Stop::Unexpected => Fault::Unexpected(place),
            Stop::TooLarge => Fault::TooLarge(place),
        }
    }
}

/// A reader inside `depth` lists, behind an item of the innermost or at its beginning.
#[derive(Drop)]
struct Reader<'a> {
    rest: &'a [Token],
    steps: Vec<Step>,
    depth: usize,
    behind_item: bool,
}

impl<'a> Reader<'a> {
    // The next token, where it is a number.
    fn next_number(&self) -> Option<u32>
        ensures { result ≡ number_next self.now.rest.now }
    {
        match self.rest.first() {
            Some(Token::Number(number)) => Some(*number),
            _ => None,
        }
    }

    // The next token is this one.
    fn is_next(&self, mark: Token) -> bool
        ensures { MatchBool result (slice_get self.now.rest.now 0 ≡ Some mark) (slice_get self.now.rest.now 0 ≢ Some mark) }
    {
        self.rest.first() == Some(&mark)
    }

    // `..` comes behind the next token.
    fn is_range_next(&self) -> bool
        ensures { MatchBool result (slice_get self.now.rest.now 1 ≡ Some Token.Dots) (slice_get self.now.rest.now 1 ≢ Some Token.Dots) }
    {
        self.rest.get(1) == Some(&Token::Dots)
    }

    // Moves behind the next token.
    fn skip(&mut self)
        requires { 0 < length self.old.rest.now }
        ensures rest { self.new.rest.now ≡ drop 1 self.old.rest.now }
        ensures shorter { length self.new.rest.now + 1 ≡ length self.old.rest.now }
        ensures steps { self.new.steps.items ≡ self.old.steps.items }
        ensures depth { self.new.depth ≡ self.old.depth }
        ensures behind_item { self.new.behind_item ≡ self.old.behind_item }
    {
        self.rest = &self.rest[1..];
    }

    // Reads `..` and the other end of a range, behind its first number.
    #[tactic(auto, using(crate::proofs::NestedReads::range_end_goes, crate::proofs::NestedReads::range_end_stops))]
    fn range_end(&mut self) -> Result<(), Stop>
        requires { slice_get self.old.rest.now 0 ≡ Some Token.Dots }
        ensures reads { (todo : List (Shape Class Step Name)) → Moves (range_end ∷ todo) self.old todo self.new result }
        ensures depth { self.new.depth ≡ self.old.depth }
        ensures behind_item { self.new.behind_item ≡ self.old.behind_item }
        ensures shorter { length self.new.rest.now < length self.old.rest.now }
    {
        self.skip();
        let Some(last) = self.next_number() else {
            return Err(Stop::Unexpected);
        };
        self.skip();
        self.steps.push(Step::Value(last))?;
        self.steps.push(Step::Range)?;
        Ok(())
    }

    // Reads a number or a range.
    #[tactic(auto, using(crate::proofs::NestedReads::number_then_range, crate::proofs::NestedReads::number_goes, crate::proofs::NestedReads::number_exceeds))]
    fn number(&mut self, first: u32) -> Result<(), Stop>
        requires { number_next self.old.rest.now ≡ Some first }
        ensures reads { (todo : List (Shape Class Step Name)) → Moves (number ∷ todo) self.old todo self.new result }
        ensures depth { self.new.depth ≡ self.old.depth }
        ensures behind_item { self.new.behind_item ≡ self.old.behind_item }
        ensures shorter { OnOk result (length self.new.rest.now < length self.old.rest.now) }
        ensures within { length self.new.rest.now ≤ length self.old.rest.now }
    {
        let is_range = self.is_range_next();
        if first >= 256 && !is_range {
            return Err(Stop::TooLarge);
        }
        self.skip();
        self.steps.push(Step::Value(first))?;
        if is_range { self.range_end() } else { Ok(()) }
    }

    // Reads `[`, inside the lists that are open.
    #[tactic(auto, using(crate::proofs::NestedReads::nest_opens))]
    fn open(&mut self) -> Result<(), Stop>
        requires bracket { slice_get self.old.rest.now 0 ≡ Some Token.Open }
        requires room { self.old.depth + length self.old.rest.now < 2 ^ 64 }
        ensures reads { Moves (Rule Nest ∷ pending true self.old.depth) self.old (pending_in self.new) self.new result }
        ensures room { self.new.depth + length self.new.rest.now ≤ self.old.depth + length self.old.rest.now }
        ensures shorter { length self.new.rest.now < length self.old.rest.now }
    {
        self.skip();
        self.steps.push(Step::Begin)?;
        self.depth += 1;
        self.behind_item = false;
        Ok(())
    }

    // Reads `]`.
    #[tactic(auto, using(crate::proofs::NestedReads::closes))]
    fn close(&mut self) -> Result<(), Stop>
        requires bracket { slice_get self.old.rest.now 0 ≡ Some Token.Close }
        requires inside { 0 < self.old.depth }
        ensures reads { Moves (pending_in self.old) self.old (pending_in self.new) self.new result }
        ensures room { self.new.depth + length self.new.rest.now ≤ self.old.depth + length self.old.rest.now }
        ensures shorter { length self.new.rest.now < length self.old.rest.now }
    {
        self.skip();
        self.steps.push(Step::End)?;
        self.depth -= 1;
        self.behind_item = true;
        Ok(())
    }

    // The next token opens an item.
    fn opens_item(&self) -> bool
        ensures { result ≡ opens_item self.now.rest.now }
    {
        self.next_number().is_some() || self.is_next(Token::Open)
    }

    // Reads an item's first token, or the whole of a number or a range.
    #[tactic(auto, using(crate::proofs::NestedReads::item_number, crate::proofs::NestedReads::item_nest, crate::proofs::NestedReads::open_stands))]
    fn item(&mut self) -> Result<(), Stop>
        requires opened { IsTrue (opens_item self.old.rest.now) }
        requires room { self.old.depth + length self.old.rest.now < 2 ^ 64 }
        ensures reads { Moves (Rule Item ∷ pending true self.old.depth) self.old (pending_in self.new) self.new result }
        ensures room { OnOk result (self.new.depth + length self.new.rest.now ≤ self.old.depth + length self.old.rest.now) }
        ensures shorter { OnOk result (length self.new.rest.now < length self.old.rest.now) }
        ensures within { length self.new.rest.now ≤ length self.old.rest.now }
    {
        match self.next_number() {
            Some(first) => {
                self.behind_item = true;
                self.number(first)
            }
            None => self.open(),
        }
    }

    // Reads on at the beginning of a list that isn't empty.
    #[tactic(auto, using(crate::proofs::NestedReads::first_item_goes, crate::proofs::NestedReads::first_item_stops))]
    fn first_item(&mut self) -> Result<(), Stop>
        requires begun { self.old.behind_item ≡ false }
        requires inside { 0 < self.old.depth }
        requires not_closed { slice_get self.old.rest.now 0 ≢ Some Token.Close }
        requires room { self.old.depth + length self.old.rest.now < 2 ^ 64 }
        ensures reads { Moves (pending_in self.old) self.old (pending_in self.new) self.new result }
        ensures room { OnOk result (self.new.depth + length self.new.rest.now ≤ self.old.depth + length self.old.rest.now) }
        ensures shorter { OnOk result (length self.new.rest.now < length self.old.rest.now) }
        ensures within { length self.new.rest.now ≤ length self.old.rest.now }
    {
        if self.opens_item() {
            self.item()
        } else {
            Err(Stop::Unexpected)
        }
    }

    // Reads on behind an item of a list that isn't closed here.
    #[tactic(auto, using(crate::proofs::NestedReads::next_item_goes, crate::proofs::NestedReads::next_item_stops, crate::proofs::NestedReads::no_comma_stops))]
    fn next_item(&mut self) -> Result<(), Stop>
        requires behind { self.old.behind_item ≡ true }
        requires inside { 0 < self.old.depth }
        requires not_closed { slice_get self.old.rest.now 0 ≢ Some Token.Close }
        requires room { self.old.depth + length self.old.rest.now < 2 ^ 64 }
        ensures reads { Moves (pending_in self.old) self.old (pending_in self.new) self.new result }
        ensures room { OnOk result (self.new.depth + length self.new.rest.now ≤ self.old.depth + length self.old.rest.now) }
        ensures shorter { OnOk result (length self.new.rest.now < length self.old.rest.now) }
        ensures within { length self.new.rest.now ≤ length self.old.rest.now }
    {
        if !self.is_next(Token::Comma) {
            return Err(Stop::Unexpected);
        }
        self.skip();
        if self.opens_item() {
            self.item()
        } else {
            Err(Stop::Unexpected)
        }
    }

    // Reads on inside a list.
    fn step(&mut self) -> Result<(), Stop>
        requires inside { 0 < self.old.depth }
        requires room { self.old.depth + length self.old.rest.now < 2 ^ 64 }
        ensures reads { Moves (pending_in self.old) self.old (pending_in self.new) self.new result }
        ensures room { OnOk result (self.new.depth + length self.new.rest.now ≤ self.old.depth + length self.old.rest.now) }
        ensures shorter { OnOk result (length self.new.rest.now < length self.old.rest.now) }
        ensures within { length self.new.rest.now ≤ length self.old.rest.now }
    {
        if self.is_next(Token::Close) {
            self.close()
        } else if self.behind_item {
            self.next_item()
        } else {
            self.first_item()
        }
    }

    // Reads a list, and nothing behind it.
    fn run(&mut self) -> Result<(), Stop>
        requires fresh { (self.old.steps.items ≡ []) × (self.old.depth ≡ 0) }
        requires room { length self.old.rest.now < 2 ^ 64 }
        ensures told { IsTold self.old.rest.now self.new.rest.now self.new.steps.items result }
        ensures within { length self.new.rest.now ≤ length self.old.rest.now }
    {
        if !self.is_next(Token::Open) {
            return Err(Stop::Unexpected);
        }
        self.open()?;
        while self.depth > 0 {
            self.step()?;
        }
        if self.rest.is_empty() {
            Ok(())
        } else {
            Err(Stop::Unexpected)
        }
    }
}

/// Reads a nested list. Each fault but `OutOfMemory` has the place of a token, counted from 0: the first with which
/// the tokens so far are no front of a list, or the first number that is too large.
pub fn read(alloc: Global, tokens: &[Token]) -> Result<Vec<Step>, Fault>
    ensures found { IfOk result (λ steps. IsReading nested list tokens.now steps.items) }
    ensures fault { IfErr result (λ fault. IsTrueFault tokens.now fault) }

    // Each true verdict is the answer: a reading is found, and a refusal is told, unless memory runs out.
    ensures only { (v : Verdict Step Token) → IsVerdict nested list tokens.now v → Tells tokens.now v result }
{
    let mut reader = Reader {
        rest: tokens,
        steps: Vec::new(alloc),
        depth: 0,
        behind_item: false,
    };
    match reader.run() {
        Ok(()) => Ok(reader.steps),
        Err(stop) => {
            let place = tokens.len() - reader.rest.len();
            Err(stop.at(place))
        }
    }
}

#[cfg(test)]
mod tests {
    use super::*;
    use std::test::Fail;

    // `[]`, `[255]` and `[1, [2, 300 .. 400], []]`.
    #[test]
    fn reads_lists(rt: HostRuntime) {
        let cases: [(&[Token], &[Step]); 3] = [
            (&[Token::Open, Token::Close], &[Step::Begin, Step::End]),
            (
                &[Token::Open, Token::Number(255), Token::Close],
                &[Step::Begin, Step::Value(255), Step::End],
            ),
            (
                &[
                    Token::Open,
                    Token::Number(1),
                    Token::Comma,
                    Token::Open,
                    Token::Number(2),
                    Token::Comma,
                    Token::Number(300),
                    Token::Dots,
                    Token::Number(400),
                    Token::Close,
                    Token::Comma,
                    Token::Open,
                    Token::Close,
                    Token::Close,
                ],
                &[
                    Step::Begin,
                    Step::Value(1),
                    Step::Begin,
                    Step::Value(2),
                    Step::Value(300),
                    Step::Value(400),
                    Step::Range,
                    Step::End,
                    Step::Begin,
                    Step::End,
                    Step::End,
                ],
            ),
        ];
        for (tokens, want) in cases {
            let steps = read(rt.alloc(), tokens);
            assert!(rt; steps.is_ok());
            if let Ok(steps) = steps {
                assert!(rt; steps.as_slice() == want);
            }
        }
    }

    // Each stops at the token that a reader by eye would point at; of two faults the first counts.
    #[test]
    fn tells_where_lists_fail(rt: HostRuntime) {
        let cases: [(&[Token], Fault); 9] = [
            (&[], Fault::Unexpected(0)),
            (&[Token::Open], Fault::Unexpected(1)),
            (
                &[Token::Open, Token::Comma, Token::Close],
                Fault::Unexpected(1),
            ),
            (
                &[Token::Open, Token::Number(1), Token::Number(2)],
                Fault::Unexpected(2),
            ),
            (
                &[Token::Open, Token::Number(1), Token::Comma, Token::Close],
                Fault::Unexpected(3),
            ),
            (
                &[Token::Open, Token::Close, Token::Close],
                Fault::Unexpected(2),
            ),
            (
                &[Token::Open, Token::Number(256), Token::Close],
                Fault::TooLarge(1),
            ),
            (
                &[Token::Open, Token::Number(300), Token::Number(300)],
                Fault::TooLarge(1),
            ),
            (
                &[Token::Open, Token::Number(300), Token::Dots, Token::Close],
                Fault::Unexpected(3),
            ),
        ];
        for (tokens, want) in cases {
            let fault = read(rt.alloc(), tokens).err();
            assert!(rt; fault == Some(want));
        }
    }

    // 200,000 lists, each in the one before: no stack grows with the depth.
    #[test]
    fn reads_deep_lists(rt: HostRuntime) -> Result<(), Fail> {
        let mut tokens = Vec::new(rt.alloc());
        for _ in 0..200_000 {
            tokens.push(Token::Open)?;
        }
        for _ in 0..200_000 {
            tokens.push(Token::Close)?;
        }
        assert!(rt; read(rt.alloc(), &tokens).is_ok());
        Ok(())
    }
}
