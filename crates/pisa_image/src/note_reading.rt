// Reads the notes of images.
ghost use Rattle.std.specs.Prelude.{◌≡◌, ◌≤◌, ◌<◌, ◌+◌, ◌*◌, ◌-◌, ◌^◌, ◌∷◌, ℕ, List, Ok, length, vec_len, IfOk, IsTrue};
ghost use Rattle.std.specs.List.{list_all};
ghost use Rattle.std.specs.Char.{is_ascii_alphabetic};
ghost use Rattle.pisa_isa.specs.rpp_words.declared.input.TheConstants.{FIXED_CELLS};
ghost use Rattle.pisa_isa.specs.rpp_words.Names.{is_name_byte};
ghost use Rattle.pisa_isa.specs.Notes.{NoteLists, is_name, mark_fits, name_fits, names_fit, notes_fit};
ghost use Rattle.pisa_image.specs.Reading.{ImageGives, number_between, tested_byte, mark_at, marks_at, text_from as text_behind, text_at, name_at, names_at, notes_at, notes_of};

use crate::error::ImageError;
use crate::reading::{OLD_VERSION, number_between};
use pisa_isa::{
    FIXED_CELLS, FieldName, LAST_PLACE, MOST_CELLS, MOST_MARKS, MOST_NAME_BYTES, MOST_NAMES,
    MOST_STATICS, Mark, NoteText, Notes, is_name_byte,
};
use std::alloc::Global;

/// The notes after so many code cells and static cells, if the version has them, and the offset
/// after them.
pub(crate) fn notes_of(
    alloc: Global,
    version: u32,
    cells: u32,
    statics: u32,
    bytes: &[u8],
) -> Result<(Notes, u32, &[u8]), ImageError>
    requires cells { cells ≤ MOST_CELLS }
    requires statics { statics ≤ MOST_STATICS }
    ensures read { ImageGives (λ x. (x.0, x.1, x.2.now)) result
        (notes_of version cells statics (16 + 8 * cells + 4 * statics) bytes.now) }
    ensures fit { IfOk result (λ x. IsTrue (notes_fit cells statics x.0)) }
{
    let at = 16 + 8 * cells + 4 * statics;
    if version == OLD_VERSION {
        let notes = Notes {
            marks: Vec::new(alloc),
            names: Vec::new(alloc),
        };
        return Ok((notes, at, bytes));
    }
    notes_at(alloc, cells, statics, at, bytes)
}

#[tactic(auto, unfolding(crate::specs::Reading::notes_at))]
fn notes_at(
    alloc: Global,
    cells: u32,
    statics: u32,
    at: u32,
    bytes: &[u8],
) -> Result<(Notes, u32, &[u8]), ImageError>
    requires cells { cells ≤ MOST_CELLS }
    requires statics { statics ≤ MOST_STATICS }
    requires at { at < 2 ^ 28 }
    ensures read { ImageGives (λ x. (x.0, x.1, x.2.now)) result (notes_at cells statics at bytes.now) }
    ensures fit { IfOk result (λ x. IsTrue (notes_fit cells statics x.0)) }
{
    let (count, rest) = number_between(0, MOST_MARKS as u32, at, bytes)?;
    let (marks, rest) = marks_at(alloc, cells, count, at + 4, rest)?;
    let behind = at + 4 + 12 * count;
    let (count, rest) = number_between(0, MOST_NAMES as u32, behind, rest)?;
    let (names, end, rest) = names_at(alloc, statics, count, behind + 4, rest)?;
    Ok((Notes { marks, names }, end, rest))
}

/// So many marks, the first of which begins at a place.
fn marks_at(
    alloc: Global,
    cells: u32,
    count: u32,
    from: u32,
    bytes: &[u8],
) -> Result<(Vec<Mark>, &[u8]), ImageError>
    requires cells { cells ≤ MOST_CELLS }
    requires count { count ≤ MOST_MARKS }
    requires from { from < 2 ^ 29 }
    ensures read { ImageGives (λ x. (x.0.items, x.1.now)) result (marks_at cells count from bytes.now) }
    ensures fit { IfOk result (λ x. IsTrue (list_all (mark_fits cells) x.0.items)) }
    ensures len { IfOk result (λ x. length x.0.items ≡ count) }
{
    let mut marks = Vec::with_capacity(alloc, (count as usize).min(bytes.len() / 12))?;
    let mut rest = bytes;
    let mut at = from;
    for _ in 0..count {
        let (mark, after) = mark_at(cells, at, rest)?;
        marks.push(mark)?;
        rest = after;
        at += 12;
    }
    Ok((marks, rest))
}

#[tactic(auto, unfolding(crate::specs::Reading::mark_at))]
fn mark_at(cells: u32, at: u32, bytes: &[u8]) -> Result<(Mark, &[u8]), ImageError>
    requires { at < 2 ^ 30 }
    ensures { ImageGives (λ x. (x.0, x.1.now)) result (mark_at cells at bytes.now) }
{
    let (first, rest) = number_between(0, cells, at, bytes)?;
    let (end, rest) = number_between(first, cells, at + 4, rest)?;
    let (place, rest) = number_between(0, LAST_PLACE, at + 8, rest)?;
    Ok((
        Mark {
            first,
            end,
            at: place,
        },
        rest,
    ))
}

/// So many names, the first of which begins at an offset, and the offset after them.
fn names_at(
    alloc: Global,
    statics: u32,
    count: u32,
    from: u32,
    bytes: &[u8],
) -> Result<(Vec<FieldName>, u32, &[u8]), ImageError>
    requires statics { statics ≤ MOST_STATICS }
    requires count { count ≤ MOST_NAMES }
    requires from { from < 2 ^ 29 }
    ensures read { ImageGives (λ x. (x.0.items, x.1, x.2.now)) result
        (names_at statics MOST_NAME_BYTES count from bytes.now) }
    ensures fit { IfOk result (λ x. IsTrue (names_fit statics MOST_NAME_BYTES x.0.items)) }
    ensures len { IfOk result (λ x. length x.0.items ≡ count) }
{
    let mut names = Vec::new(alloc);
    let mut rest = bytes;
    let mut at = from;
    let mut left = MOST_NAME_BYTES;
    for _ in 0..count {
        let (name, after) = name_at(alloc, statics, left, at, rest)?;
        let len = name.text.bytes().len() as u32;
        names.push(name)?;
        rest = after;
        at += 8 + len;
        left -= len;
    }
    Ok((names, at, rest))
}

#[tactic(auto, unfolding(crate::specs::Reading::name_at))]
fn name_at(
    alloc: Global,
    statics: u32,
    left: u32,
    at: u32,
    bytes: &[u8],
) -> Result<(FieldName, &[u8]), ImageError>
    requires statics { statics ≤ MOST_STATICS }
    requires left { left ≤ MOST_NAME_BYTES }
    requires at { at < 2 ^ 30 }
    ensures read { ImageGives (λ x. (x.0, x.1.now)) result (name_at statics left at bytes.now) }
    ensures len { IfOk result (λ x. length x.0.text ≤ left) }
{
    let (cell, rest) = number_between(FIXED_CELLS, FIXED_CELLS + statics - 1, at, bytes)?;
    let (count, rest) = number_between(1, left, at + 4, rest)?;
    let (text, rest) = text_at(alloc, count, at + 8, rest)?;
    Ok((FieldName { cell, text }, rest))
}

#[tactic(auto, unfolding(crate::specs::Reading::text_at))]
fn text_at(
    alloc: Global,
    count: u32,
    at: u32,
    bytes: &[u8],
) -> Result<(NoteText, &[u8]), ImageError>
    requires from { 1 ≤ count }
    requires to { count ≤ MOST_NAME_BYTES }
    requires at { at < 2 ^ 30 + 8 }
    ensures read { ImageGives (λ x. (x.0, x.1.now)) result (text_at count at bytes.now) }
    ensures len { IfOk result (λ x. length x.0 ≡ count) }
{
    let (first, rest) = letter_at(at, bytes)?;
    let (text, rest) = text_from(alloc, first, count - 1, at + 1, rest)?;
    Ok((NoteText::of(alloc, &text)?, rest))
}

/// A name that begins with a byte and goes on with so many.
fn text_from(
    alloc: Global,
    first: u8,
    count: u32,
    from: u32,
    bytes: &[u8],
) -> Result<(Vec<u8>, &[u8]), ImageError>
    requires count { count ≤ MOST_NAME_BYTES }
    requires from { from < 2 ^ 30 + 16 }
    ensures read { ImageGives (λ x. (x.0.items, x.1.now)) result (text_behind first count from bytes.now) }
    ensures len { IfOk result (λ x. length x.0.items ≡ count + 1) }
{
    let mut text = Vec::new(alloc);
    text.push(first)?;
    let mut rest = bytes;
    let mut at = from;
    for _ in 0..count {
        let (byte, after) = name_byte_at(at, rest)?;
        text.push(byte)?;
        rest = after;
        at += 1;
    }
    Ok((text, rest))
}

fn letter_at(at: u32, bytes: &[u8]) -> Result<(u8, &[u8]), ImageError>
    ensures { ImageGives (λ x. (x.0, x.1.now)) result (tested_byte is_ascii_alphabetic at bytes.now) }
{
    match bytes {
        [] => Err(ImageError::ImageTruncated { at }),
        [byte, rest @ ..] if byte.is_ascii_alphabetic() => Ok((*byte, rest)),
        [_, ..] => Err(ImageError::ImageField { at }),
    }
}

fn name_byte_at(at: u32, bytes: &[u8]) -> Result<(u8, &[u8]), ImageError>
    ensures { ImageGives (λ x. (x.0, x.1.now)) result (tested_byte is_name_byte at bytes.now) }
{
    match bytes {
        [] => Err(ImageError::ImageTruncated { at }),
        [byte, rest @ ..] if is_name_byte(*byte) => Ok((*byte, rest)),
        [_, ..] => Err(ImageError::ImageField { at }),
    }
}
