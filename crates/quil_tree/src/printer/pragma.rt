//! The tokens of a pragma, behind another text.

ghost use Rattle.std.specs.Prelude.{◌≡◌, [], ◌++◌, if◌then◌else◌, codes, OnOk};
ghost use Rattle.quil_tree.specs.Printed.{is_joined, is_mark_before, is_mark_behind, pragma_text};

use crate::text::Text;
use std::alloc::AllocError;

/// Writes tokens, the first one of which stands behind this one.
pub(crate) fn push_tokens<'a>(
    text: &mut Vec<u8>,
    mut before: &'a [u8],
    mut tokens: &'a [Text],
) -> Result<(), AllocError>
    ensures { OnOk result (text.new.items ≡ text.old.items ++ pragma_text before.entry.now tokens.entry.now) }
{
    while let [token, rest @ ..] = tokens {
        push_token(text, before, token.as_bytes())?;
        before = token.as_bytes();
        tokens = rest;
    }
    Ok(())
}

fn push_token(text: &mut Vec<u8>, before: &[u8], token: &[u8]) -> Result<(), AllocError>
    ensures { OnOk result (text.new.items ≡ text.old.items ++ ((if is_joined before.now token.now then [] else codes " ") ++ token.now)) }
{
    if !is_joined(before, token) {
        text.extend_from_slice(b" ")?;
    }
    text.extend_from_slice(token)
}

// No blank stands between the two. Behind a comma there is always one.
fn is_joined(before: &[u8], token: &[u8]) -> bool
    ensures { result ≡ is_joined before.now token.now }
{
    before != b",".as_slice() && (is_mark_behind(token) || is_mark_before(before))
}

// No blank stands before the token.
fn is_mark_behind(token: &[u8]) -> bool
    ensures { result ≡ is_mark_behind token.now }
{
    token == b",".as_slice()
        || token == b"(".as_slice()
        || token == b")".as_slice()
        || token == b"[".as_slice()
        || token == b"]".as_slice()
        || token == b":".as_slice()
}

// No blank stands behind the token.
fn is_mark_before(token: &[u8]) -> bool
    ensures { result ≡ is_mark_before token.now }
{
    token == b"(".as_slice() || token == b"[".as_slice()
}
