// The code of copies.
ghost use Rattle.std.specs.Prelude.{◌≡◌, ◌++◌, IfOk};
ghost use Rattle.refine_heap.specs.paired_code.Code.{unmarked};
ghost use Rattle.object_codegen.specs.Code.{same_words as same_cells, two_places as two_cells, copy_checks as copy_checks_cells, uncopy_checks as uncopy_checks_cells, refer_cells, count_cells, copy_alter, copy_mid};

use crate::cells::{addi, enclosed, exch, xor};
use crate::guards::{REFERENCE, load, nil_place, some_place};
use expr_uncompute::{Piece, check_differ, check_equal, mirror, seq};
use static_layout::NoMemory;
use static_layout::faults::{NIL, NOT_NIL, NOT_SAME};
use static_layout::memory::COUNT_WORD;
use static_layout::registers::{CONTENT, NOUGHT, OTHER_PLACE, PLACE};
use std::alloc::Global;

fn same_words(alloc: Global) -> Result<Piece, NoMemory>
    ensures { IfOk result (λ p. p ≡ unmarked same_cells) }
{
    let first = load(alloc, PLACE)?;
    let second = load(alloc, OTHER_PLACE)?;
    let both = seq(first, second)?;
    let check = check_equal(alloc, REFERENCE, NOUGHT, NOT_SAME)?;
    enclosed(alloc, both, check)
}

fn two_places(alloc: Global) -> Result<Piece, NoMemory>
    ensures { IfOk result (λ p. p ≡ unmarked two_cells) }
{
    check_differ(alloc, PLACE, OTHER_PLACE, NOT_SAME)
}

fn copy_checks(alloc: Global) -> Result<Piece, NoMemory>
    ensures { IfOk result (λ p. p ≡ unmarked copy_checks_cells) }
{
    let some = some_place(alloc, PLACE, NIL)?;
    let nil = nil_place(alloc, OTHER_PLACE, NOT_NIL)?;
    seq(some, nil)
}

fn uncopy_checks(alloc: Global) -> Result<Piece, NoMemory>
    ensures { IfOk result (λ p. p ≡ unmarked uncopy_checks_cells) }
{
    let some = some_place(alloc, PLACE, NIL)?;
    let same = same_words(alloc)?;
    let two = two_places(alloc)?;
    let rest = seq(same, two)?;
    seq(some, rest)
}

fn refer(alloc: Global) -> Result<Piece, NoMemory>
    ensures { IfOk result (λ p. p ≡ unmarked refer_cells) }
{
    let word = exch(alloc, CONTENT, OTHER_PLACE)?;
    let put = xor(alloc, CONTENT, REFERENCE)?;
    enclosed(alloc, word, put)
}

fn count(alloc: Global) -> Result<Piece, NoMemory>
    ensures { IfOk result (λ p. p ≡ unmarked count_cells) }
{
    let at = addi(alloc, REFERENCE, COUNT_WORD)?;
    let word = exch(alloc, CONTENT, REFERENCE)?;
    let up = addi(alloc, CONTENT, 1)?;
    let change = enclosed(alloc, word, up)?;
    enclosed(alloc, at, change)
}

fn alter(alloc: Global) -> Result<Piece, NoMemory>
    ensures { IfOk result (λ p. p ≡ unmarked copy_alter) }
{
    let loaded = load(alloc, PLACE)?;
    let referred = refer(alloc)?;
    let counted = count(alloc)?;
    let change = seq(referred, counted)?;
    enclosed(alloc, loaded, change)
}

/// The middle of a copy: its inverse is that of an uncopy.
pub fn copy_middle(alloc: Global) -> Result<Piece, NoMemory>
    ensures { IfOk result (λ p. p ≡ unmarked copy_mid) }
{
    let before = copy_checks(alloc)?;
    let change = alter(alloc)?;
    let inverse = uncopy_checks(alloc)?;
    let behind = mirror(alloc, &inverse)?;
    let rest = seq(change, behind)?;
    seq(before, rest)
}
