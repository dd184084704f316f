// What is found among kept steps.
ghost use Rattle.std.specs.Prelude.{◌≡◌, ◌≢◌, ◌<◌, ◌+◌, All, drop, find, length, MatchOption};
ghost use Rattle.pisa_cluster.specs.declared.processor.Kept.{Kept};
ghost use Rattle.pisa_cluster.specs.Schedules.{LastOf, is_same_cell, is_same_cell as same_cell};

use crate::processor::Kept;

/// The place of the last step of a processor, if there is one.
pub(crate) fn last_step(kept: &[Kept], who: u32) -> Option<usize>
    ensures { MatchOption result (All (λ (k : Kept). k.who ≢ who) kept.now)
        (λ at. (last : LastOf who kept.now) × (length last.earlier ≡ at)) }
{
    let mut at = kept.len();
    while at > 0 {
        at -= 1;
        if kept[at].who == who {
            return Some(at);
        }
    }
    None
}

/// The steps after an index.
pub(crate) fn steps_after(kept: &[Kept], at: usize) -> &[Kept]
    requires { at < length kept.now }
    ensures { result.now ≡ drop (at + 1) kept.now }
{
    &kept[at + 1..]
}

/// Whether two steps touch one cell.
fn is_same_cell(a: Option<u32>, b: Option<u32>) -> bool
    ensures { result ≡ same_cell a b }
{
    match (a, b) {
        (Some(a), Some(b)) => a == b,
        _ => false,
    }
}

/// The first step that touches a cell, if one does.
pub(crate) fn next_touch(touched: Option<u32>, later: &[Kept]) -> Option<Kept>
    ensures { result ≡ find (λ (k : Kept). same_cell touched k.touched) later.now }
{
    for step in later {
        if is_same_cell(touched, step.touched) {
            return Some(*step);
        }
    }
    None
}
