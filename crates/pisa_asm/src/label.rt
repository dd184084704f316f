// Labels.
ghost use Rattle.std.specs.Prelude.{◌≡◌, ◌≢◌, ◌<◌, MatchResult, Ok, Err};
ghost use Rattle.std.specs.List.{list_all};
ghost use Rattle.pisa_asm.specs.Chain.{Refuses};
ghost use Rattle.pisa_asm.specs.Lines.{line_words};
ghost use Rattle.pisa_asm.specs.LabelNames.{begins_name, is_label_byte, is_label_name, is_label, label_names, after_labels, label_address};
ghost use Rattle.pisa_asm.specs.Passes.{label_at, labels_at};

use crate::error::AsmError;
use crate::line::{all_but_last, ends_in, next_word};
use indexmap::IndexMap;
use pisa_isa::Text;
use std::alloc::Global;

/// Whether a byte may begin a name.
fn begins_name(byte: u8) -> bool
    ensures { result ≡ begins_name byte }
{
    byte.is_ascii_alphabetic() || byte == b'_'
}

/// Whether a byte may follow the first of a name.
fn is_label_byte(byte: u8) -> bool
    ensures { result ≡ is_label_byte byte }
{
    byte.is_ascii_alphabetic() || byte.is_ascii_digit() || byte == b'_'
}

/// Whether all of these bytes may follow the first of a name.
fn are_label_bytes(bytes: &[u8]) -> bool
    ensures { result ≡ list_all is_label_byte bytes.now }
{
    bytes.iter().all(|byte| is_label_byte(*byte))
}

/// Whether a word is a name.
pub fn is_name(word: &[u8]) -> bool
    ensures { result ≡ is_label_name word.now }
{
    match word {
        [] => false,
        [first, rest @ ..] => begins_name(*first) && are_label_bytes(rest),
    }
}

/// Whether a word is a label.
fn is_label(word: &[u8]) -> bool
    ensures { result ≡ is_label word.now }
{
    ends_in(b':', word) && is_name(all_but_last(word))
}

/// What follows the labels of a line.
pub fn after_labels(line: &[u8]) -> &[u8]
    ensures { line_words result.now ≡ after_labels (line_words line.now) }
{
    let mut rest = line;
    while let Some((word, behind)) = next_word(rest) {
        if !is_label(word) {
            return rest;
        }
        rest = behind;
    }
    rest
}

/// Adds a label at the end, unless there is one of this name.
fn note_label(
    alloc: Global,
    labels: &mut IndexMap<Text, u32>,
    name: &[u8],
    place: u32,
    line: u32,
) -> Result<(), AsmError>
    ensures { MatchResult result
        (λ _. label_at line name.now place labels.old.entries (label_address name.now labels.old.entries)
        ≡ Ok labels.new.entries)
        (Refuses (label_at line name.now place labels.old.entries
        (label_address name.now labels.old.entries))) }
{
    match labels.insert(Text::of(alloc, name)?, place)? {
        None => Ok(()),
        Some(_earlier) => Err(AsmError::DuplicateLabel { line }),
    }
}

/// Adds the labels of a line at the end, each for this code address.
pub fn note_labels(
    alloc: Global,
    labels: &mut IndexMap<Text, u32>,
    content: &[u8],
    place: u32,
    line: u32,
) -> Result<(), AsmError>
    ensures { MatchResult result
        (λ _. labels_at line place labels.old.entries (label_names (line_words content.now))
        ≡ Ok labels.new.entries)
        (Refuses (labels_at line place labels.old.entries (label_names (line_words content.now)))) }
{
    let mut rest = content;
    while let Some((word, behind)) = next_word(rest) {
        if !is_label(word) {
            return Ok(());
        }
        note_label(alloc, labels, all_but_last(word), place, line)?;
        rest = behind;
    }
    Ok(())
}

/// The code address of the label of this name.
pub fn place_of(labels: &IndexMap<Text, u32>, name: &Text) -> Option<u32>
    ensures { result ≡ label_address name.now labels.now.entries }
{
    labels.get(name).copied()
}
