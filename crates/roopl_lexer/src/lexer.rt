// A text is cut into its tokens.
ghost use Rattle.std.specs.Prelude.{◌≡◌, ◌≢◌, ◌<◌, ◌≤◌, length, ◌+◌, slice_index, All, MatchResult, IfOk, IfErr, true, false};
ghost use Rattle.std.specs.Char.{is_ascii_alphabetic, is_ascii_digit};
ghost use Rattle.roopl_lexer.specs.Tokens.{IsCutting, IsFirstRefusal};
ghost use Rattle.roopl_lexer.specs.Readable.{AreInOrder, AreReadable};
ghost use Rattle.roopl_lexer.specs.Begins.{IsBlank, IsTokenAt, IsRefusedAt};

use crate::error::LexError;
use crate::number::number_of;
use crate::pieces::{begins_comment, comment_len, digits_len, is_white, name_len};
use crate::sign::{sign_len, sign_of};
use crate::token::{Token, TokenKind};
use crate::word::keyword_of;
use rpp_tree::{MOST_BYTES, Text};
use std::alloc::Global;

/// The tokens of a text, in order, each the longest at its place.
/// Places are in bytes from the start of the text.
pub fn lex(alloc: Global, text: &[u8]) -> Result<Vec<Token>, LexError>
    requires { length text.now ≤ MOST_BYTES }
    ensures tokens { IfOk result (λ tokens. IsCutting text.now tokens.items) }

    // The tokens come one after the other, each within the text.
    ensures order { IfOk result (λ tokens. AreInOrder 0 tokens.items (length text.now)) }
    ensures within { IfOk result (λ tokens. All (λ token. token.at + token.len ≤ length text.now)
        tokens.items) }
    ensures readable { IfOk result (λ tokens. AreReadable tokens.items) }

    // If memory does not run out, a refusal is the first one of the text.
    ensures refusal { IfErr result (λ error. error ≢ LexError.NoMemory → IsFirstRefusal text.now error) }
{
    let mut tokens = Vec::new(alloc);
    let mut at = 0;
    while at < text.len() {
        let rest = &text[at..];
        let blank = blank_len(rest);
        if blank > 0 {
            at += blank;
        } else {
            let token = token_at(alloc, rest, at as u32)?;
            at += token.len as usize;
            tokens.push(token)?;
        }
    }
    Ok(tokens)
}

/// How many bytes of white space or of a comment come first.
fn blank_len(rest: &[u8]) -> usize
    requires { 0 < length rest.now }
    ensures { IsBlank rest.now result }
{
    if is_white(rest[0]) {
        1
    } else if begins_comment(rest) {
        comment_len(rest)
    } else {
        0
    }
}

/// The token that begins here.
fn token_at(alloc: Global, rest: &[u8], at: u32) -> Result<Token, LexError>
    requires some_bytes { 0 < length rest.now }
    requires few_bytes { length rest.now ≤ MOST_BYTES }
    ensures { MatchResult result (IsTokenAt at rest.now) (IsRefusedAt at rest.now) }
{
    let first = rest[0];
    if first.is_ascii_alphabetic() {
        word_at(alloc, rest, at)
    } else if first.is_ascii_digit() {
        number_at(rest, at)
    } else {
        sign_at(rest, at)
    }
}

/// The name or keyword that begins at a letter.
fn word_at(alloc: Global, rest: &[u8], at: u32) -> Result<Token, LexError>
    requires some_bytes { 0 < length rest.now }
    requires few_bytes { length rest.now ≤ MOST_BYTES }
    requires letter { is_ascii_alphabetic (slice_index rest.now 0) ≡ true }
    ensures { MatchResult result (IsTokenAt at rest.now) (IsRefusedAt at rest.now) }
{
    let len = name_len(rest);
    let word = &rest[..len];
    let kind = match keyword_of(word) {
        Some(keyword) => TokenKind::Word(keyword),
        None => TokenKind::Name(Text::of(alloc, word)?),
    };
    Ok(Token {
        kind,
        at,
        len: len as u32,
    })
}

/// The number that begins at a digit.
fn number_at(rest: &[u8], at: u32) -> Result<Token, LexError>
    requires some_bytes { 0 < length rest.now }
    requires few_bytes { length rest.now ≤ MOST_BYTES }
    requires digit { is_ascii_digit (slice_index rest.now 0) ≡ true }
    ensures { MatchResult result (IsTokenAt at rest.now) (IsRefusedAt at rest.now) }
{
    let len = digits_len(rest);
    match number_of(&rest[..len]) {
        Some(number) => Ok(Token {
            kind: TokenKind::Number(number),
            at,
            len: len as u32,
        }),
        None => Err(LexError::NumberTooLarge { at }),
    }
}

/// The symbol that begins at a byte that begins neither a word nor a number.
fn sign_at(rest: &[u8], at: u32) -> Result<Token, LexError>
    requires some_bytes { 0 < length rest.now }
    requires no_letter { is_ascii_alphabetic (slice_index rest.now 0) ≡ false }
    requires no_digit { is_ascii_digit (slice_index rest.now 0) ≡ false }
    ensures { MatchResult result (IsTokenAt at rest.now) (IsRefusedAt at rest.now) }
{
    match sign_of(rest) {
        Some(sign) => Ok(Token {
            kind: TokenKind::Sign(sign),
            at,
            len: sign_len(sign),
        }),
        None => Err(LexError::BadByte { at }),
    }
}
