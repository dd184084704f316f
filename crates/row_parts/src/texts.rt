// The texts that the pieces of rows mean.
ghost use Rattle.std.specs.Prelude.{◌≡◌, ◌==◌, ◌||◌, ◌++◌, ◌∷◌, ◌<◌, List, ℕ, map, flat_map, string_bytes, encode_utf8, IfOk};
ghost use Rattle.std.specs.Char.{is_ascii_alphanumeric};
ghost use Rattle.std.specs.List.{slice_split};
ghost use Rattle.row_parts.specs.Texts.{meant, digit, escaped, words, is_word};
ghost use Rattle.row_parts.specs.Reading.{meant_from};

use std::alloc::{AllocError, Global};

// Where the reading of a text is.
#[derive(Clone, Copy, Drop)]
enum Reading {
    Outside,
    Escape,
    HighDigit,
    LowDigit(u8),
}

/// The bytes that a text means: \n, \t, \r, \\ and \xNN are read.
pub fn plain(alloc: Global, text: &str) -> Result<Vec<u8>, AllocError>
    ensures { IfOk result (λ bytes. bytes.items ≡ meant text.now) }
{
    let mut made = Vec::new(alloc);
    let mut reading = Reading::Outside;
    let bytes = text.as_bytes();
    for byte in bytes {
        reading = read(&mut made, reading, *byte)?;
    }
    Ok(made)
}

// Reads a byte.
fn read(made: &mut Vec<u8>, reading: Reading, byte: u8) -> Result<Reading, AllocError>
    ensures { IfOk result (λ after. (text : List ℕ)
        → made.new.items ++ meant_from after text
        ≡ made.old.items ++ meant_from reading (byte ∷ text)) }
{
    match reading {
        Reading::Outside if byte == b'\\' => Ok(Reading::Escape),
        Reading::Outside => {
            made.push(byte)?;
            Ok(Reading::Outside)
        }
        Reading::Escape if byte == b'x' => Ok(Reading::HighDigit),
        Reading::Escape => {
            made.push(escaped(byte))?;
            Ok(Reading::Outside)
        }
        Reading::HighDigit => Ok(Reading::LowDigit(byte)),
        Reading::LowDigit(high) => {
            made.push(digit(high) * 16 + digit(byte))?;
            Ok(Reading::Outside)
        }
    }
}

fn escaped(byte: u8) -> u8
    ensures { result ≡ escaped byte }
{
    match byte {
        b'n' => b'\n',
        b't' => b'\t',
        b'r' => b'\r',
        _ => byte,
    }
}

// The value of a digit of a number to the base 16.
fn digit(byte: u8) -> u8
    ensures value { result ≡ digit byte }
    ensures small { result < 16 }
{
    match byte {
        b'0'..=b'9' => byte - b'0',
        b'a'..=b'f' => byte - b'a' + 10,
        _ => 0,
    }
}

/// The words that a text means, parted by one space each.
pub fn words(alloc: Global, text: &str) -> Result<Vec<String>, AllocError>
    ensures { IfOk result (λ made. map string_bytes made.items ≡ words text.now) }
{
    let bytes = plain(alloc, text)?;
    let mut words = Vec::new(alloc);
    let pieces = at_spaces(alloc, bytes.as_slice())?;
    for piece in &pieces {
        words.push(characters(alloc, piece)?)?;
    }
    Ok(words)
}

// The bytes between spaces.
fn at_spaces(alloc: Global, bytes: &[u8]) -> Result<Vec<&[u8]>, AllocError>
    ensures { IfOk result (λ made. map (λ piece. piece.now) made.items
        ≡ slice_split (λ byte. byte == 32) bytes.now) }
{
    bytes.split(|byte| *byte == b' ').collect(alloc)
}

// The text with a character for each byte.
fn characters(alloc: Global, bytes: &[u8]) -> Result<String, AllocError>
    ensures { IfOk result (λ made. string_bytes made ≡ flat_map encode_utf8 bytes.now) }
{
    let mut made = String::new(alloc);
    for byte in bytes {
        made.push(char::from(*byte))?;
    }
    Ok(made)
}

/// Whether these are only letters, digits and _, and at least one.
pub fn is_word(text: &str) -> bool
    ensures { result ≡ is_word text.now }
{
    if text.is_empty() {
        return false;
    }
    let bytes = text.as_bytes();
    for byte in bytes {
        if !is_in_word(*byte) {
            return false;
        }
    }
    true
}

fn is_in_word(byte: u8) -> bool
    ensures { result ≡ (is_ascii_alphanumeric byte || byte == 95) }
{
    byte.is_ascii_alphanumeric() || byte == b'_'
}
