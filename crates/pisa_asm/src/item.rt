// What is on a line after its labels.
ghost use Rattle.std.specs.Prelude.{◌≡◌, MatchOption, MatchResult, None, Ok, Some};
ghost use Rattle.pisa_asm.specs.Chain.{or_bad, Refuses};
ghost use Rattle.pisa_asm.specs.Lines.{line_words};
ghost use Rattle.pisa_asm.specs.Items.{static_from, unsigned_from, mark_from, name_from, item_from, other_item};

use crate::error::AsmError;
use crate::line::next_word;
use crate::mnemonic::row_named;
use crate::number::{unsigned_number, word_number};
use crate::operand::{Given, given_from, sole_word};
use pisa_isa::{FieldName, Mark, NoteText, is_name};
use std::alloc::Global;

/// What is on a line after its labels.
#[derive(Drop)]
pub enum Item {
    /// Nothing.
    Nothing,
    /// An instruction.
    Code(Given),
    /// A static word.
    Static(u32),
    /// A mark.
    Marked(Mark),
    /// A name.
    Named(FieldName),
}

/// The number after STATIC.
fn static_from(words: &[u8]) -> Option<u32>
    ensures { result ≡ static_from (line_words words.now) }
{
    match sole_word(words) {
        None => None,
        Some(word) => word_number(word),
    }
}

/// The number that the first word writes, and what follows it.
fn unsigned_from(words: &[u8]) -> Option<(u32, &[u8])>
    ensures { MatchOption result (unsigned_from (line_words words.now) ≡ None)
        (λ p. unsigned_from (line_words words.now) ≡ Some (p.0, line_words p.1.now)) }
{
    match next_word(words) {
        None => None,
        Some((word, rest)) => match unsigned_number(word) {
            None => None,
            Some(number) => Some((number, rest)),
        },
    }
}

/// The mark after MARK: its first cell, its end and its offset.
fn mark_from(words: &[u8]) -> Option<Mark>
    ensures { result ≡ mark_from (line_words words.now) }
{
    let (first, words) = unsigned_from(words)?;
    let (end, words) = unsigned_from(words)?;
    let at = unsigned_number(sole_word(words)?)?;
    Some(Mark { first, end, at })
}

/// The name after NAME: its data cell and its bytes.
fn name_from(alloc: Global, words: &[u8], line: u32) -> Result<FieldName, AsmError>
    ensures { MatchResult result
        (λ name. or_bad line (name_from (line_words words.now)) ≡ Ok name)
        (Refuses (or_bad line (name_from (line_words words.now)))) }
{
    match unsigned_from(words) {
        None => Err(AsmError::BadLine { line }),
        Some((cell, rest)) => match sole_word(rest) {
            None => Err(AsmError::BadLine { line }),
            Some(word) => {
                if !is_name(word) {
                    return Err(AsmError::BadLine { line });
                }
                let text = NoteText::of(alloc, word)?;
                Ok(FieldName { cell, text })
            }
        },
    }
}

/// What a first word that is no mnemonic begins.
fn other_item(alloc: Global, first: &[u8], rest: &[u8], line: u32) -> Result<Item, AsmError>
    ensures { MatchResult result
        (λ item. other_item line first.now (line_words rest.now) ≡ Ok item)
        (Refuses (other_item line first.now (line_words rest.now))) }
{
    if first == b"STATIC".as_slice() {
        return match static_from(rest) {
            None => Err(AsmError::BadLine { line }),
            Some(word) => Ok(Item::Static(word)),
        };
    }
    if first == b"MARK".as_slice() {
        return match mark_from(rest) {
            None => Err(AsmError::BadLine { line }),
            Some(mark) => Ok(Item::Marked(mark)),
        };
    }
    if first == b"NAME".as_slice() {
        return Ok(Item::Named(name_from(alloc, rest, line)?));
    }
    Err(AsmError::UnknownMnemonic { line })
}

/// What follows the labels of a line, given all the words that do.
pub fn item_from(alloc: Global, behind: &[u8], line: u32) -> Result<Item, AsmError>
    ensures { MatchResult result
        (λ item. item_from line (line_words behind.now) ≡ Ok item)
        (Refuses (item_from line (line_words behind.now))) }
{
    match next_word(behind) {
        None => Ok(Item::Nothing),
        Some((first, rest)) => match row_named(first) {
            None => other_item(alloc, first, rest, line),
            Some(op) => Ok(Item::Code(given_from(alloc, op, rest, line)?)),
        },
    }
}
