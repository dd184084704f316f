// The limits of a run.
ghost use Rattle.std.specs.Prelude.{◌≡◌, ◌≤◌, IfOk, MatchResult, Some, None};
ghost use Rattle.pisa_loader.specs.Limiting.{limits_refusal};

use crate::error::LoadError;
use pisa_machine::{Limits, MOST_HEAP};

/// The limits of a run, with an order of the heap from 1 to 20 and a depth from 1 to `most`. The
/// order is tried first.
pub fn check_limits(heap: u64, deep: u64, most: u32) -> Result<Limits, LoadError>
    ensures answer { MatchResult result (λ _. limits_refusal heap deep most ≡ None)
        (λ refusal. limits_refusal heap deep most ≡ Some refusal) }
    ensures limits { IfOk result (λ limits. limits ≡ record { heap = heap; deep = deep }) }
    ensures heap { IfOk result (λ limits. (1 ≤ limits.heap) × (limits.heap ≤ MOST_HEAP)) }
    ensures deep { IfOk result (λ limits. (1 ≤ limits.deep) × (limits.deep ≤ most)) }
{
    if heap == 0 || heap > MOST_HEAP {
        return Err(LoadError::HeapOrder);
    }
    if deep == 0 || deep > u64::from(most) {
        return Err(LoadError::DeepRange);
    }
    Ok(Limits {
        heap: heap as u32,
        deep: deep as u32,
    })
}
