// Reads inputs.
ghost use Rattle.std.specs.Prelude.{◌≡◌, ◌≤◌, ◌<◌, ◌+◌, ◌^◌, ℕ, [], All, map, length, vec_len, IfOk, OnOk, nat_eq};
ghost use Rattle.std.specs.List.{slice_split, list_any};
ghost use Rattle.pisa_loader.specs.InputLines.{field_named, is_set, line_word, with_field_word, input_of, AreInput};
ghost use Rattle.pisa_loader.specs.States.{Gives};

use crate::error::LoadError;
use crate::lines::{entry_in, is_blank_line};
use pisa_machine::{FieldWord, Input, Text};
use std::alloc::{AllocError, Global};

/// The most bytes of an input.
pub const MOST_INPUT: usize = 65_536;

/// An int field of the main class, which an input may set.
#[derive(Drop)]
pub struct InputField {
    /// Its name.
    pub name: Text,
    /// Its number among the fields of the main class, from 0, inherited ones first.
    pub field: u32,
}

/// The words that an input gives to fields. A line of it is blank, or a name, `=` and a decimal
/// number from -2147483648 to 2147483647, with spaces and tabs around each. The first line that is
/// refused counts; that it has this form is tried before its name.
pub fn read_input(alloc: Global, bytes: &[u8], fields: &[InputField]) -> Result<Input, LoadError>
    requires { length bytes.now ≤ MOST_INPUT }
    // What it returns, the first refusal included.
    ensures exact { Gives (λ input. input.words.items) result (input_of fields.now bytes.now) }
    // What is read are words for these fields, for none twice.
    ensures input { IfOk result (λ input. AreInput fields.now input.words.items) }
{
    read_lines(alloc, bytes, fields)
}

fn read_lines(alloc: Global, bytes: &[u8], fields: &[InputField]) -> Result<Input, LoadError>
    requires { length bytes.now ≤ MOST_INPUT }
    ensures { Gives (λ input. input.words.items) result (input_of fields.now bytes.now) }
{
    let lines = lines(alloc, bytes)?;
    let mut words = Vec::new(alloc);
    let mut number = 1;
    for line in &lines {
        let word = line_word(fields, &words, number, line)?;
        add(&mut words, word)?;
        number += 1;
    }
    Ok(Input { words })
}

/// Puts the word of a line at the end, if it has one.
fn add(words: &mut Vec<FieldWord>, word: Option<FieldWord>) -> Result<(), AllocError>
    ensures { OnOk result (words.new.items ≡ with_field_word words.old.items word) }
{
    match word {
        None => Ok(()),
        Some(word) => {
            words.push(word)?;
            Ok(())
        }
    }
}

/// The lines, which line feeds part.
fn lines(alloc: Global, bytes: &[u8]) -> Result<Vec<&[u8]>, AllocError>
    ensures { IfOk result (λ lines. map (λ line. line.now) lines.items
        ≡ slice_split (λ b. nat_eq b 10) bytes.now) }
{
    bytes.split(|byte| *byte == b'\n').collect(alloc)
}

/// What a line sets in addition to the words of the lines before it.
fn line_word(
    fields: &[InputField],
    words: &[FieldWord],
    line: u32,
    text: &[u8],
) -> Result<Option<FieldWord>, LoadError>
    ensures { Gives (λ word. word) result (line_word fields.now line words.now text.now) }
{
    if is_blank_line(text) {
        return Ok(None);
    }
    let Some((name, word)) = entry_in(text) else {
        return Err(LoadError::BadInputLine { line });
    };
    match field_named(fields, name) {
        Some(field) if !is_set(words, field) => Ok(Some(FieldWord { field, word })),
        _ => Err(LoadError::UnknownField { line }),
    }
}

/// The number of the first field of this name.
fn field_named(fields: &[InputField], name: &[u8]) -> Option<u32>
    ensures { result ≡ field_named fields.now name.now }
{
    for known in fields {
        if known.name.bytes() == name {
            return Some(known.field);
        }
    }
    None
}

/// Whether one of the words is a field's.
fn is_set(words: &[FieldWord], field: u32) -> bool
    ensures { result ≡ is_set words.now field }
{
    words.iter().any(|word| word.field == field)
}
