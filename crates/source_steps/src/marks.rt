// The marks of names: a name without a mark is none of the names that are marked.
ghost use Rattle.std.specs.Prelude.{◌≡◌, ◌<◌};
ghost use Rattle.source_steps.specs.Marks.{mark_number, has_mark, with_mark as with_one, with_marks as with_each};

use class_table::tree::Var;

/// The number of the mark of a name.
#[inline(always)]
fn mark_of(name: &[u8]) -> u32
    ensures number { result ≡ mark_number name.now }
    ensures few { result < 64 }
{
    match name {
        [] => 0,
        [first, ..] => (*first as u32 + 8 * (name.len() % 8) as u32) % 64,
    }
}

/// Whether a name has its mark among these.
#[tactic(auto, using(crate::proofs::Marked::no_mark))]
#[inline(always)]
pub(crate) fn is_marked(marks: u64, name: &[u8]) -> bool
    ensures { result ≡ has_mark marks name.now }
{
    if marks == 0 {
        return false;
    }
    (marks >> mark_of(name)) % 2 == 1
}

/// These marks with that of one more name.
pub fn with_mark(marks: u64, name: &[u8]) -> u64
    ensures { result ≡ with_one marks name.now }
{
    marks | (1 << mark_of(name))
}

/// These marks with those of the names of parameters.
pub fn with_marks(marks: u64, params: &[Var]) -> u64
    ensures { result ≡ with_each marks params.now }
{
    match params {
        [] => marks,
        [var, later @ ..] => with_marks(with_mark(marks, var.name.text.bytes()), later),
    }
}
