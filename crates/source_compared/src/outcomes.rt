// What a test compares, by the value of its expression.
ghost use Rattle.std.specs.Prelude.{◌≡◌, ℕ, Result as Outcome};
ghost use Rattle.source_store.specs.roopl_semantics.Store.{Value as Worth};
ghost use Rattle.source_store.specs.ValueView.{value_of};
ghost use Rattle.source_compared.specs.Comparisons.{truth, same_as};
ghost use Rattle.source_compared.specs.ComparedView.{compared_of, IsValue};

use crate::comparing::Compared;
use source_store::Value;

/// What a test compares whose expression has this value, or fails so.
pub fn compare_truth(found: Option<Value>, failed: Compared, wanted: bool) -> Compared
    ensures { (r : Outcome Worth ℕ) → IsValue found r
        → compared_of result ≡ truth wanted (compared_of failed) r }
{
    match found {
        Some(found) => Compared::Truth { found, wanted },
        None => failed,
    }
}

/// The same of a variable whose last value is to be this one.
pub fn compare_values(found: Value, failed: Compared, wanted: Option<Value>) -> Compared
    ensures { (r : Outcome Worth ℕ) → IsValue wanted r
        → compared_of result ≡ same_as (value_of found) (compared_of failed) r }
{
    match wanted {
        Some(wanted) => Compared::Values { found, wanted },
        None => failed,
    }
}
