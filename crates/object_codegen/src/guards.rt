// What is tried of the word of a place.
ghost use Rattle.std.specs.Prelude.{◌≡◌, ◌≢◌, ◌<◌, [], ◌∷◌, IfOk};
ghost use Rattle.refine_heap.specs.paired_code.Code.{unmarked};
ghost use Rattle.object_codegen.specs.Code.{nil_place as nil_cells, some_place as some_cells, load_cells};

use crate::cells::{enclosed, exch, xor};
use expr_uncompute::{Piece, check_equal, check_positive};
use static_layout::NoMemory;
use static_layout::registers::{CONTENT, FIRST_WORD, NOUGHT};
use std::alloc::Global;

/// The address of an object or array.
pub const REFERENCE: u8 = FIRST_WORD;

/// The word at the address in the register is nil, or the fault.
pub fn nil_place(alloc: Global, at: u8, code: u32) -> Result<Piece, NoMemory>
    requires register { at < 32 }
    requires apart { CONTENT ≢ at }
    ensures { IfOk result (λ p. p ≡ unmarked (nil_cells at code)) }
{
    let word = exch(alloc, CONTENT, at)?;
    let check = check_equal(alloc, CONTENT, NOUGHT, code)?;
    enclosed(alloc, word, check)
}

/// It is not nil, or the fault.
pub fn some_place(alloc: Global, at: u8, code: u32) -> Result<Piece, NoMemory>
    requires register { at < 32 }
    requires apart { CONTENT ≢ at }
    ensures { IfOk result (λ p. p ≡ unmarked (some_cells at code)) }
{
    let word = exch(alloc, CONTENT, at)?;
    let check = check_positive(alloc, CONTENT, code)?;
    enclosed(alloc, word, check)
}

//// The word at the address in the register xored into the reference.
pub fn load(alloc: Global, at: u8) -> Result<Piece, NoMemory>
    requires register { at < 32 }
    requires apart { CONTENT ≢ at }
    ensures { IfOk result (λ p. p ≡ unmarked (load_cells at)) }
{
    let word = exch(alloc, CONTENT, at)?;
    let taken = xor(alloc, REFERENCE, CONTENT)?;
    enclosed(alloc, word, taken)
}
