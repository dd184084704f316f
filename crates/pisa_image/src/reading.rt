// Reads images.
ghost use Rattle.std.specs.Prelude.{◌≡◌, ◌≤◌, ◌<◌, ◌+◌, ◌*◌, ◌^◌, ℕ, List, All, length, vec_len, IfOk, IsTrue, Ok};
ghost use Rattle.pisa_isa.specs.rpp_words.Words.{IsWord};
ghost use Rattle.pisa_isa.specs.Table.{IsCell};
ghost use Rattle.pisa_isa.specs.Image.{Segments, IsImage};
ghost use Rattle.pisa_isa.specs.Notes.{NotedImage, no_notes, fits};
ghost use Rattle.pisa_image.specs.ImageBytes.{image_bytes, old_image_bytes, AreBytesOf};
ghost use Rattle.pisa_image.specs.Reading.{ImageGives, byte_below, row_at, fields_at, cell_at, cells_at, number_between, header_at, segments_at, ended, sealed, noted_at, image_at, segments, noted, is_of_counts, as_image_error};

use crate::error::ImageError;
use crate::note_reading::notes_of;
use crate::numbers::{word_at, words_at};
use crate::ranges::{a_end, b_end, c_end, is_word_of};
use crate::rows::row_with;
use pisa_isa::{Cell, Image, MOST_CELLS, MOST_STATICS, Noted, Notes, Op, SealError};
use std::alloc::Global;

/// The first four bytes, `RPPI`, as a number.
pub const MARK: u32 = 0x4950_5052;
/// The version of the format.
pub const VERSION: u32 = 2;
/// The version of images without notes, which is read and no longer written.
pub const OLD_VERSION: u32 = 1;

/// The image that the bytes are, with its notes. One of the version before has none.
pub fn read_image(alloc: Global, bytes: &[u8]) -> Result<Noted, ImageError>
    // What it returns, the first refusal included.
    ensures exact { ImageGives (λ n. n) result (image_at bytes.now) }
    // What is read as an image is its bytes, or those without notes of the version before.
    ensures found { IfOk result (λ n. AreBytesOf n bytes.now) }
    // The bytes of an image with notes are read as it, unless memory runs out.
    ensures only { (n : NotedImage) → IsImage n.image → IsTrue (fits n.image n.notes)
        → All IsWord n.image.statics → bytes.now ≡ image_bytes n
        → ImageGives (λ n. n) result (Ok n) }
    // So are those of an image of the version before.
    ensures old { (image : Segments) → IsImage image → All IsWord image.statics
        → bytes.now ≡ old_image_bytes image
        → ImageGives (λ n. n) result (Ok (noted no_notes image)) }
{
    image_of(alloc, bytes)
}

#[tactic(auto, unfolding(crate::specs::Reading::image_at))]
fn image_of(alloc: Global, bytes: &[u8]) -> Result<Noted, ImageError>
    ensures { ImageGives (λ n. n) result (image_at bytes.now) }
{
    let (version, cells, statics, rest) = header_at(bytes)?;
    let (code, words, rest) = segments_at(alloc, cells, statics, rest)?;
    noted_at(alloc, version, code, words, rest)
}

/// The version, and the numbers of code cells and of static cells.
#[tactic(auto, unfolding(crate::specs::Reading::header_at))]
fn header_at(bytes: &[u8]) -> Result<(u32, u32, u32, &[u8]), ImageError>
    ensures read { ImageGives (λ x. (x.0, x.1, x.2, x.3.now)) result (header_at bytes.now) }
    ensures cells { IfOk result (λ x. x.1 ≤ MOST_CELLS) }
    ensures statics { IfOk result (λ x. x.2 ≤ MOST_STATICS) }
{
    let (mark, rest) = word_at(0, bytes)?;
    if mark != MARK {
        return Err(ImageError::ImageMagic { at: 0 });
    }
    let (version, rest) = number_between(OLD_VERSION, VERSION, 4, rest)?;
    let (cells, rest) = number_between(2, MOST_CELLS as u32, 8, rest)?;
    let (statics, rest) = number_between(0, MOST_STATICS as u32, 12, rest)?;
    Ok((version, cells, statics, rest))
}

/// The code and the static cells after the header.
#[tactic(auto, unfolding(crate::specs::Reading::segments_at))]
fn segments_at(
    alloc: Global,
    cells: u32,
    statics: u32,
    bytes: &[u8],
) -> Result<(Vec<Cell>, Vec<u32>, &[u8]), ImageError>
    requires cells { cells ≤ MOST_CELLS }
    requires statics { statics ≤ MOST_STATICS }
    ensures read { ImageGives (λ x. (segments x.0.items x.1.items, x.2.now)) result
        (segments_at cells statics bytes.now) }
    ensures cells { IfOk result (λ x. All IsCell x.0.items) }
    ensures code { IfOk result (λ x. vec_len x.0 ≡ cells) }
    ensures words { IfOk result (λ x. vec_len x.1 ≡ statics) }
{
    let (code, rest) = cells_at(alloc, cells, bytes)?;
    let (words, rest) = words_at(alloc, statics, 16 + 8 * cells, rest)?;
    Ok((code, words, rest))
}

/// The image of these cells with the notes after them.
#[tactic(auto, unfolding(crate::specs::Reading::noted_at))]
fn noted_at(
    alloc: Global,
    version: u32,
    code: Vec<Cell>,
    words: Vec<u32>,
    bytes: &[u8],
) -> Result<Noted, ImageError>
    requires cells { All IsCell code.items }
    requires code_in_limit { vec_len code ≤ MOST_CELLS }
    requires statics_in_limit { vec_len words ≤ MOST_STATICS }
    ensures { ImageGives (λ n. n) result
        (noted_at version (vec_len code) (vec_len words) (segments code.items words.items)
        bytes.now) }
{
    let cells = code.len() as u32;
    let statics = words.len() as u32;
    let (notes, at, rest) = notes_of(alloc, version, cells, statics, bytes)?;
    let notes = ended(notes, at, rest)?;
    let image = sealed(code, words)?;
    Ok(Noted::seal(image, notes))
}

/// The notes, if nothing follows them.
fn ended(notes: Notes, at: u32, rest: &[u8]) -> Result<Notes, ImageError>
    ensures { ImageGives (λ n. n) result (ended notes at rest.now) }
{
    if !rest.is_empty() {
        return Err(ImageError::ImageTrailing { at });
    }
    Ok(notes)
}

/// An image of these cells.
fn sealed(code: Vec<Cell>, statics: Vec<u32>) -> Result<Image, ImageError>
    requires cells { All IsCell code.items }
    requires code_in_limit { vec_len code ≤ MOST_CELLS }
    requires statics_in_limit { vec_len statics ≤ MOST_STATICS }
    ensures { ImageGives (λ image. image) result (sealed (segments code.items statics.items)) }
{
    match Image::seal(code, statics) {
        Ok(image) => Ok(image),
        Err(refusal) => Err(count_refusal(refusal)),
    }
}

/// The refusal of the number of START or of FINISH cells.
fn count_refusal(refusal: SealError) -> ImageError
    requires { IsTrue (is_of_counts refusal) }
    ensures { result ≡ as_image_error refusal }
{
    match refusal {
        SealError::NoStart => ImageError::NoStart,
        SealError::NoFinish => ImageError::NoFinish,
        SealError::NotOneToOne { at: _ } | SealError::NoMemory => unreachable!(),
    }
}

/// So many code cells.
fn cells_at(alloc: Global, count: u32, bytes: &[u8]) -> Result<(Vec<Cell>, &[u8]), ImageError>
    requires { count ≤ MOST_CELLS }
    ensures read { ImageGives (λ x. (x.0.items, x.1.now)) result (cells_at count 16 bytes.now) }
    ensures cells { IfOk result (λ x. All IsCell x.0.items) }
    ensures len { IfOk result (λ x. vec_len x.0 ≡ count) }
{
    // What is announced takes no more memory than the bytes that are there can hold.
    let mut cells = Vec::with_capacity(alloc, (count as usize).min(bytes.len() / 8))?;
    let mut rest = bytes;
    let mut at = 16;
    for _ in 0..count {
        let (cell, after) = cell_at(at, rest)?;
        cells.push(cell)?;
        rest = after;
        at += 8;
    }
    Ok((cells, rest))
}

/// The code cell that begins at a place.
#[tactic(auto, unfolding(crate::specs::Reading::cell_at))]
fn cell_at(at: u32, bytes: &[u8]) -> Result<(Cell, &[u8]), ImageError>
    requires { at < 2 ^ 30 }
    ensures { ImageGives (λ x. (x.0, x.1.now)) result (cell_at at bytes.now) }
{
    let (op, rest) = row_at(at, bytes)?;
    let (cell, rest) = fields_at(at, op, rest)?;
    if !cell.is_one_to_one() {
        return Err(ImageError::NotOneToOne { at });
    }
    Ok((cell, rest))
}

/// The row of the cell that begins at a place.
fn row_at(at: u32, bytes: &[u8]) -> Result<(Op, &[u8]), ImageError>
    ensures { ImageGives (λ x. (x.0, x.1.now)) result (row_at at bytes.now) }
{
    match bytes {
        [] => Err(ImageError::ImageTruncated { at }),
        [number, rest @ ..] => match row_with(*number) {
            None => Err(ImageError::ImageField { at }),
            Some(op) => Ok((op, rest)),
        },
    }
}

/// The other fields of the cell that begins at a place.
#[tactic(auto, unfolding(crate::specs::Reading::fields_at))]
fn fields_at(at: u32, op: Op, bytes: &[u8]) -> Result<(Cell, &[u8]), ImageError>
    requires { at < 2 ^ 30 }
    ensures { ImageGives (λ x. (x.0, x.1.now)) result (fields_at at op bytes.now) }
{
    let (a, rest) = byte_below(at + 1, a_end(op), bytes)?;
    let (b, rest) = byte_below(at + 2, b_end(op), rest)?;
    let (c, rest) = byte_below(at + 3, c_end(op), rest)?;
    let (imm, rest) = word_at(at + 4, rest)?;
    if !is_word_of(op, imm) {
        return Err(ImageError::ImageField { at: at + 4 });
    }
    Ok((Cell { op, a, b, c, imm }, rest))
}

/// The byte at a place, which must be below an end.
fn byte_below(at: u32, end: u8, bytes: &[u8]) -> Result<(u8, &[u8]), ImageError>
    ensures { ImageGives (λ x. (x.0, x.1.now)) result (byte_below at end bytes.now) }
{
    match bytes {
        [] => Err(ImageError::ImageTruncated { at }),
        [byte, rest @ ..] if *byte < end => Ok((*byte, rest)),
        [_, ..] => Err(ImageError::ImageField { at }),
    }
}

/// The number at a place, which must be in a range.
pub(crate) fn number_between(
    low: u32,
    high: u32,
    at: u32,
    bytes: &[u8],
) -> Result<(u32, &[u8]), ImageError>
    requires { at < 2 ^ 31 }
    ensures read { ImageGives (λ x. (x.0, x.1.now)) result (number_between low high at bytes.now) }
    ensures from { IfOk result (λ x. low ≤ x.0) }
    ensures to { IfOk result (λ x. x.0 ≤ high) }
{
    let (number, rest) = word_at(at, bytes)?;
    if number < low || number > high {
        return Err(ImageError::ImageField { at });
    }
    Ok((number, rest))
}
