//! Declarations of regions.

ghost use Rattle.std.specs.Prelude.{◌≡◌, ◌<◌, ◌≤◌, [], ◌∷◌, IfOk, IfErr, OnOk, length};
ghost use Rattle.quil_shape.specs.Shape.Shape.{One, Seq, Many};
ghost use Rattle.quil_grammar.specs.Grammar.Piece.{Counts};
ghost use Rattle.quil_grammar.specs.Frames.{StopsFor};
ghost use Rattle.quil_grammar.specs.Parts.Part.{Made};
ghost use Rattle.quil_grammar.specs.Statements.{maybe, length as length_shape, some_length, offset, offsets, sharing, declaration};
ghost use Rattle.quil_statement.specs.Meaning.{type_name_of};
ghost use Rattle.quil_statement.specs.Says.{Reads, SaysItem};
ghost use Rattle.quil_statement.specs.Loops.{IsOffset, AreOffsets, IsSharing, MaybeShares};

use crate::parser::Parser;
use quil_grammar::{Class, Sort, Stop};
use quil_tree::{Declaration, Item, List, Offset, Sharing, Text, TypeName, Whole};
use std::alloc::Global;

fn type_name_of(word: Sort) -> TypeName
    ensures { result ≡ type_name_of word }
{
    if word.is(Sort::Bit) {
        TypeName::Bit
    } else if word.is(Sort::Octet) {
        TypeName::Octet
    } else if word.is(Sort::Integer) {
        TypeName::Integer
    } else {
        TypeName::Real
    }
}

impl<'a, 'b> Parser<'a, 'b> {
    // Reads a length in brackets.
    #[tactic(auto, using(crate::proofs::Declarations::length_read, crate::proofs::Sequences::stops_first, crate::proofs::Sequences::stops_second, crate::proofs::Sequences::stops_third))]
    fn some_length(&mut self, alloc: Global) -> Result<Whole, Stop>
        ensures ok { IfOk result (λ n. Reads some_length self.old.tokens.rest.now self.new.tokens.rest.now (Made (Counts n) ∷ [])) }
        ensures err { IfErr result (λ e. StopsFor e some_length self.old.tokens.rest.now self.new.tokens.rest.now) }
    {
        self.mark(Class::IndexBegins)?;
        let length = self.count(alloc, Class::Length)?;
        self.mark(Class::IndexEnds)?;
        Ok(length)
    }

    // Reads a length in brackets, or none, which is 1.
    #[tactic(auto, using(crate::proofs::Declarations::length_stands, crate::proofs::Declarations::no_length, crate::proofs::Declarations::length_stops))]
    fn length(&mut self, alloc: Global) -> Result<Whole, Stop>
        ensures ok { IfOk result (λ n. Reads length_shape self.old.tokens.rest.now self.new.tokens.rest.now (Made (Counts n) ∷ [])) }
        ensures err { IfErr result (λ e. StopsFor e length_shape self.old.tokens.rest.now self.new.tokens.rest.now) }
    {
        if !self.sees(Class::IndexBegins) {
            let digits = Text::new(alloc, b"1")?;
            return Ok(Whole { digits, value: 1 });
        }
        let length = self.some_length(alloc)?;
        Ok(length)
    }

    // Reads a number of cells and their type.
    #[tactic(auto, using(crate::proofs::Declarations::offset_read, crate::proofs::Sequences::stops_first, crate::proofs::Sequences::stops_second))]
    fn offset(&mut self, alloc: Global) -> Result<Offset, Stop>
        ensures ok { IfOk result (λ o. IsOffset self.old.tokens.rest.now self.new.tokens.rest.now o) }
        ensures err { IfErr result (λ e. StopsFor e offset self.old.tokens.rest.now self.new.tokens.rest.now) }
        ensures shorter { OnOk result (length self.new.tokens.rest.now < length self.old.tokens.rest.now) }
    {
        let count = self.count(alloc, Class::OffsetCount)?;
        let (_, word) = self.word(Class::CellType)?;
        Ok(Offset {
            count,
            kind: type_name_of(word),
        })
    }

    // Reads one offset or more.
    #[tactic(auto, using(crate::proofs::Declarations::offsets_begin, crate::proofs::Declarations::offsets_go_on, crate::proofs::Declarations::offsets_end, crate::proofs::Declarations::offsets_stop, crate::proofs::Sequences::stops_first))]
    fn some_offsets(&mut self, alloc: Global) -> Result<List<Offset>, Stop>
        ensures ok { IfOk result (λ os. AreOffsets (Seq offset (Many offset)) self.old.tokens.rest.now self.new.tokens.rest.now os) }
        ensures err { IfErr result (λ e. StopsFor e (Seq offset (Many offset)) self.old.tokens.rest.now self.new.tokens.rest.now) }
    {
        let first = self.offset(alloc)?;
        let mut all = List::new(alloc);
        all.push(first)?;
        'more: while self.sees(Class::OffsetCount) {
            let next = self.offset(alloc)?;
            all.push(next)?;
        }
        Ok(all)
    }

    // Reads OFFSET and offsets.
    #[tactic(auto, using(crate::proofs::Declarations::offsets_read, crate::proofs::Sequences::stops_first, crate::proofs::Sequences::stops_second))]
    fn offsets(&mut self, alloc: Global) -> Result<List<Offset>, Stop>
        ensures ok { IfOk result (λ os. AreOffsets offsets self.old.tokens.rest.now self.new.tokens.rest.now os) }
        ensures err { IfErr result (λ e. StopsFor e offsets self.old.tokens.rest.now self.new.tokens.rest.now) }
    {
        self.mark(Class::Offset)?;
        let all = self.some_offsets(alloc)?;
        Ok(all)
    }

    // Reads the same, where it stands.
    #[tactic(auto, using(crate::proofs::Declarations::offsets_stand, crate::proofs::Declarations::no_offsets, crate::proofs::Declarations::offsets_start, crate::proofs::Tokens::maybe_stops))]
    fn maybe_offsets(&mut self, alloc: Global) -> Result<List<Offset>, Stop>
        ensures ok { IfOk result (λ os. AreOffsets (maybe offsets) self.old.tokens.rest.now self.new.tokens.rest.now os) }
        ensures err { IfErr result (λ e. StopsFor e (maybe offsets) self.old.tokens.rest.now self.new.tokens.rest.now) }
    {
        if !self.sees(Class::Offset) {
            return Ok(List::new(alloc));
        }
        let all = self.offsets(alloc)?;
        Ok(all)
    }

    // Reads SHARING.
    #[tactic(auto, using(crate::proofs::Declarations::sharing_read, crate::proofs::Declarations::sharing_stops, crate::proofs::Sequences::stops_first, crate::proofs::Sequences::stops_second))]
    fn sharing(&mut self, alloc: Global) -> Result<Sharing, Stop>
        ensures ok { IfOk result (λ s. IsSharing self.old.tokens.rest.now self.new.tokens.rest.now s) }
        ensures err { IfErr result (λ e. StopsFor e sharing self.old.tokens.rest.now self.new.tokens.rest.now) }
    {
        self.mark(Class::Sharing)?;
        let base = self.name(alloc, Class::Named)?;
        let offsets = self.maybe_offsets(alloc)?;
        Ok(Sharing { base, offsets })
    }

    // Reads the same, where it stands.
    #[tactic(auto, using(crate::proofs::Declarations::sharing_stands, crate::proofs::Declarations::no_sharing, crate::proofs::Declarations::sharing_starts, crate::proofs::Tokens::maybe_stops))]
    fn maybe_sharing(&mut self, alloc: Global) -> Result<Option<Sharing>, Stop>
        ensures ok { IfOk result (λ s. MaybeShares self.old.tokens.rest.now self.new.tokens.rest.now s) }
        ensures err { IfErr result (λ e. StopsFor e (maybe sharing) self.old.tokens.rest.now self.new.tokens.rest.now) }
    {
        if !self.sees(Class::Sharing) {
            return Ok(None);
        }
        let found = self.sharing(alloc)?;
        Ok(Some(found))
    }

    // Reads DECLARE.
    #[tactic(auto, using(crate::proofs::Declarations::declaration_said, crate::proofs::Sequences::stops_first, crate::proofs::Sequences::stops_second, crate::proofs::Sequences::stops_third, crate::proofs::Sequences::stops_fourth, crate::proofs::Declarations::declaration_stops))]
    pub(crate) fn declaration(&mut self, alloc: Global) -> Result<Item, Stop>
        ensures ok { IfOk result (λ i. SaysItem declaration self.old.tokens.rest.now self.new.tokens.rest.now i) }
        ensures err { IfErr result (λ e. StopsFor e declaration self.old.tokens.rest.now self.new.tokens.rest.now) }
    {
        let (place, _) = self.word(Class::Declare)?;
        let name = self.name(alloc, Class::Named)?;
        let (_, word) = self.word(Class::CellType)?;
        let length = self.length(alloc)?;
        let sharing = self.maybe_sharing(alloc)?;
        Ok(Item::Declare(Declaration {
            place,
            name,
            kind: type_name_of(word),
            length,
            sharing,
        }))
    }
}
