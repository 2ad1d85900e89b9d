//! The tree of a text.

ghost use Rattle.std.specs.Prelude.{◌≡◌, ◌≢◌, ℕ, ◌<◌, ◌≤◌, List, [], length, map, reverse, IfOk, IfErr, OnOk, Ok, Err};
ghost use Rattle.quil_lex.specs.Reading.{span_of};
ghost use Rattle.quil_tree.specs.declared.item.Item.{Item};
ghost use Rattle.quil_grammar.specs.Answer.{Gives};
ghost use Rattle.quil_grammar.specs.declared.parse.TheConstants.{MOST_BYTES};
ghost use Rattle.quil_grammar.specs.declared.fault.ReadFault as fault;
ghost use Rattle.quil_parse.specs.Program.{IsTreeOf, IsFaultOf, Goes, beginning, body_context};
ghost use Rattle.quil_parse.specs.Told.{Tells, GoesOnBehind, RefusesBehind};
ghost use Rattle.quil_parse.specs.Steps.{OrNoMemory, names_in, so_far};

use crate::context::Context;
use crate::items::{Items, push_line, wants_body};
use crate::tokens::{is_empty, line_end};
use quil_grammar::ReadFault;
use quil_lex::{Segment, tokens_to_bad_byte};
use quil_tree::{Item, Place, Tree};
use std::alloc::Global;

/// A text has at most so many bytes.
const MOST_BYTES: usize = 1_048_576;

// Reads a segment, and tells where the last line with a token ends then.
fn read_segment(
    items: &mut Items<Item>,
    context: &mut Context,
    end: Place,
    alloc: Global,
    segment: &Segment<'_>,
) -> Result<Place, ReadFault>
    requires { names_in context.old ≡ body_context (so_far items.old) }
    ensures context { OnOk result (names_in context.new ≡ body_context (so_far items.new)) }
    ensures ok { IfOk result (λ new. GoesOnBehind end (so_far items.old) (span_of segment.now) new (so_far items.new)) }
    ensures err { IfErr result (λ f. OrNoMemory f (RefusesBehind end (so_far items.old) (span_of segment.now) f)) }
{
    if is_empty(segment) {
        return Ok(end);
    }
    push_line(items, context, alloc, segment)?;
    Ok(line_end(segment))
}

// Reads all segments of a text.
fn read_segments(
    items: &mut Items<Item>,
    alloc: Global,
    mut segments: &[Segment<'_>],
) -> Result<(), ReadFault>
    requires { so_far items.old ≡ [] }
    ensures ok { OnOk result (Goes beginning [] (map span_of segments.entry.now) (Ok (so_far items.new))) }
    ensures err { IfErr result (λ f. OrNoMemory f (Goes beginning [] (map span_of segments.entry.now) (Err f))) }
{
    let mut end = Place { line: 1, column: 1 };
    let mut context = Context::none(alloc);
    while let [segment, rest @ ..] = segments {
        end = read_segment(items, &mut context, end, alloc, segment)?;
        segments = rest;
    }
    if wants_body(items) {
        return Err(ReadFault::Unexpected {
            line: end.line,
            column: end.column,
        });
    }
    Ok(())
}

// The tree of a text's segments.
fn read_lines(alloc: Global, segments: &[Segment<'_>]) -> Result<Tree, ReadFault>
    ensures ok { IfOk result (λ tree. Goes beginning [] (map span_of segments.now) (Ok (reverse tree))) }
    ensures err { IfErr result (λ f. OrNoMemory f (Goes beginning [] (map span_of segments.now) (Err f))) }
{
    let mut items = Items::new(alloc);
    let read = read_segments(&mut items, alloc, segments);
    items.finish(alloc, read)
}

// The tree of a text that isn't too long.
fn read(alloc: Global, text: &[u8]) -> Result<Tree, ReadFault>
    requires { length text.now ≤ MOST_BYTES }
    ensures { Tells text.now result }
{
    let lexemes = tokens_to_bad_byte(alloc, text)?;
    read_lines(alloc, &lexemes.segments)
}

/// The tree of a text, by the whole grammar of this profile of Quil.
///
/// A text of more than 1,048,576 bytes is TextTooLong, whatever is in it. Another one that is no program is refused with the
/// fault at the least place. A byte at which no token begins is BadToken, a number too large for its place NumberTooWide, a
/// word that the language leaves out LeftOut, each where the tokens of its line before it are a front of what may stand there;
/// any other token that no front goes on with is Unexpected. Where the tokens of a line end too early, Unexpected stands at
/// the `;` that ends it, or behind the last byte of the line. A header with no line of a body is Unexpected at the first token
/// behind it, or behind its line. Any text that isn't too long may be refused for want of memory.
pub fn parse(alloc: Global, text: &[u8]) -> Result<Tree, ReadFault>
    // What is given is what the grammar relates to the bytes, and no other tree is.
    ensures found { IfOk result (λ tree. IsTreeOf text.now tree) }
    ensures only { (tree : List Item) → IsTreeOf text.now tree → Gives result (Ok tree) }
    // A text is refused with its fault, and with no other. One that is too long takes no memory.
    ensures refused { IfErr result (IsFaultOf text.now) }
    ensures only_fault { (f : fault.ReadFault) → f ≢ ReadFault.OutOfMemory → IsFaultOf text.now f → Gives result (Err f) }
    ensures too_long { MOST_BYTES < length text.now → result ≡ Err (ReadFault.TextTooLong (length text.now)) }
{
    if text.len() > MOST_BYTES {
        return Err(ReadFault::TextTooLong {
            length: text.len() as u64,
        });
    }
    read(alloc, text)
}
