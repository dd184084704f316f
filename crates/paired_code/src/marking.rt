// The marks of an image, from those of the fragments that it is linked of.

ghost use Rattle.std.specs.Prelude.{◌≡◌, ◌+◌, ◌^◌, ◌<◌, ◌≤◌, ◌++◌, length, IfOk, OnOk};
ghost use Rattle.std.specs.List.Sorted.{IsPermutation, IsNonDecreasingBy};
ghost use Rattle.paired_code.specs.Link.{routines_size, link_size};
ghost use Rattle.paired_code.specs.Code.{bodies, routine_marks, link_marks, EachWithin, AllWithin};

use crate::piece::{Piece, cells_of, marks_in};
use crate::span::put_marks;
use code_conventions::{MOST_CELLS, Mark, NoMemory};
use std::alloc::Global;

/// The marks of the fragments on the cells of the image, in ascending order of their places.
pub(crate) fn marks_of(
    alloc: Global,
    main: &Piece,
    routines: &[Piece],
) -> Result<Vec<Mark>, NoMemory>
    requires { link_size main.now.cells (bodies routines.now) ≤ MOST_CELLS }
    ensures same { IfOk result (λ v. IsPermutation (link_marks main.now routines.now) v.items) }
    ensures ascending { IfOk result (λ v. IsNonDecreasingBy (λ k. k.at) v.items) }
    ensures within { OnOk result (AllWithin (length main.now.cells) main.now.marks) }
    ensures each_within { OnOk result (EachWithin routines.now) }
{
    let mut marks = Vec::new(alloc);
    put_marks(&mut marks, marks_in(main), 1)?;
    put_routine_marks(&mut marks, routines, 1 + cells_of(main).len() as u32 + 1)?;
    put_in_order(&mut marks)?;
    Ok(marks)
}

// The marks of the routines, of which the first has its top at `first`.
fn put_routine_marks(marks: &mut Vec<Mark>, routines: &[Piece], first: u32) -> Result<(), NoMemory>
    requires { first + routines_size (bodies routines.now) ≤ MOST_CELLS }
    ensures marks { OnOk result (marks.new.items ≡ marks.old.items ++ routine_marks first routines.now) }
    ensures within { OnOk result (EachWithin routines.now) }
{
    let mut top = first;
    for piece in routines {
        put_marks(marks, marks_in(piece), top + 3)?;
        top += cells_of(piece).len() as u32 + 4;
    }
    Ok(())
}

// The marks in ascending order of their places.
fn put_in_order(marks: &mut Vec<Mark>) -> Result<(), NoMemory>
    ensures same { OnOk result (IsPermutation marks.old.items marks.new.items) }
    ensures ascending { OnOk result (IsNonDecreasingBy (λ k. k.at) marks.new.items) }
{
    marks.sort_by_key(
        |k: &Mark| -> u32
            ensures { result ≡ k.now.at }
        { k.at },
    )?;
    Ok(())
}
