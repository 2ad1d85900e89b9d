//! A place in a text, from which it is read on.

ghost use Rattle.std.specs.Prelude.{◌+◌, ◌<◌, ◌^◌, length};

// A place in a text.
#[derive(Clone, Copy)]
pub(crate) struct Cursor<'a> {
    pub(crate) line: u32,
    // The bytes of the line.
    pub(crate) bytes: &'a [u8],
    pub(crate) column: u32,
    // The bytes of the line from the column on.
    pub(crate) rest: &'a [u8],
    // The lines behind this one.
    pub(crate) after: &'a [u8],
    ghost columns: { column + length rest.now < 2 ^ 32 },
    ghost lines: { line + length after.now < 2 ^ 32 },
    ghost ends: { length bytes.now + length after.now + 1 < 2 ^ 32 },
}
