// The lines of a script, and the words of lines.
ghost use Rattle.std.specs.Prelude.{◌≡◌, ◌≤◌, ◌+◌, ◌++◌, map, length, vec_len, IfOk, OnOk};
ghost use Rattle.pisa_scripts.specs.Lines.{pieces as pieces_of, is_blank as is_blank_line, begins_with as begins, kept_byte, without_returns as text_without_returns};

use std::alloc::{AllocError, Global};

/// The most bytes of a script.
pub const MOST_SCRIPT: usize = 65_536;

/// Whether there are only spaces and tabs.
pub fn is_blank(line: &[u8]) -> bool
    ensures { result ≡ is_blank_line line.now }
{
    line.iter().all(|byte| *byte == b' ' || *byte == b'\t')
}

/// The pieces that a byte parts.
pub fn pieces(alloc: Global, at: u8, bytes: &[u8]) -> Result<Vec<&[u8]>, AllocError>
    ensures { IfOk result (λ pieces. map (λ piece. piece.now) pieces.items ≡ pieces_of at bytes.now) }
{
    bytes.split(|byte| *byte == at).collect(alloc)
}

// Whether the first byte is this one.
fn begins_with(byte: u8, bytes: &[u8]) -> bool
    ensures { result ≡ begins byte bytes.now }
{
    match bytes {
        [] => false,
        [first, ..] => *first == byte,
    }
}

/// A text without the carriage returns that come before line feeds.
pub fn without_returns(alloc: Global, bytes: &[u8]) -> Result<Vec<u8>, AllocError>
    ensures text { IfOk result (λ text. text.items ≡ text_without_returns bytes.now) }
    ensures within { IfOk result (λ text. vec_len text ≤ length bytes.now) }
{
    let mut text = Vec::new(alloc);
    for (i, byte) in bytes.iter().enumerate() {
        add_byte(&mut text, *byte, &bytes[i + 1..])?;
    }
    Ok(text)
}

// Puts a byte at the end, unless it is a carriage return before a line feed.
fn add_byte(text: &mut Vec<u8>, byte: u8, rest: &[u8]) -> Result<(), AllocError>
    ensures items { OnOk result (text.new.items ≡ text.old.items ++ kept_byte byte rest.now) }
    ensures one { OnOk result (vec_len text.new ≤ vec_len text.old + 1) }
{
    if byte == b'\r' && begins_with(b'\n', rest) {
        return Ok(());
    }
    text.push(byte)?;
    Ok(())
}
