// Reads numbers of four bytes, the lowest byte first.
ghost use Rattle.std.specs.Prelude.{◌≡◌, ◌<◌, ◌^◌, vec_len, IfOk};
ghost use Rattle.pisa_image.specs.Numbers.{NumberGives, read_word_at, words_at};

use crate::error::NumberError;
use std::alloc::Global;

/// The number at an offset, and the bytes after it.
pub fn word_at(at: u32, bytes: &[u8]) -> Result<(u32, &[u8]), NumberError>
    requires { at < 2 ^ 31 }
    ensures { NumberGives (λ x. (x.0, x.1.now)) result (read_word_at at bytes.now) }
{
    if bytes.len() < 4 {
        return Err(NumberError::Cut {
            at: at + bytes.len() as u32,
        });
    }
    let (front, rest) = bytes.split_at(4);
    let number = u32::from_le_bytes([front[0], front[1], front[2], front[3]]);
    Ok((number, rest))
}

/// So many numbers, the first of which begins at an offset, and the bytes after them.
pub fn words_at(
    alloc: Global,
    count: u32,
    from: u32,
    bytes: &[u8],
) -> Result<(Vec<u32>, &[u8]), NumberError>
    requires count { count < 2 ^ 24 }
    requires from { from < 2 ^ 30 }
    ensures read { NumberGives (λ x. (x.0.items, x.1.now)) result (words_at count from bytes.now) }
    ensures len { IfOk result (λ x. vec_len x.0 ≡ count) }
{
    // What is announced takes no more memory than the bytes that are there can fill.
    let mut words = Vec::with_capacity(alloc, (count as usize).min(bytes.len() / 4))?;
    let mut rest = bytes;
    let mut at = from;
    for _ in 0..count {
        let (word, after) = word_at(at, rest)?;
        words.push(word)?;
        rest = after;
        at += 4;
    }
    Ok((words, rest))
}
