// An element that is read, if it is not there.
ghost use Rattle.std.specs.Prelude.{◌≡◌, ℕ, Result as Outcome};
ghost use Rattle.source_store.specs.roopl_semantics.Store.{Value as Worth};
ghost use Rattle.source_store.specs.ValueView.{value_of};
ghost use Rattle.source_compared.specs.Comparisons.{access_in as access_in_store, access_at as access_of};
ghost use Rattle.source_compared.specs.ComparedView.{compared_of, IsValue};

use crate::comparing::Compared;
use source_store::{Heap, Value};

// An element of an array at an index, if it is not there.
fn access_in(heap: &Heap, array: Value, index: u32) -> Compared
    ensures { compared_of result ≡ access_in_store heap.now.store (value_of array) index }
{
    match array {
        Value::Name(name) => {
            let limit = heap.length_of(name);
            if (index as usize) < limit {
                Compared::Nothing
            } else {
                Compared::Below {
                    found: Value::Word(index),
                    limit,
                }
            }
        }
        Value::Nil => Compared::Missing { array: true },
        Value::Word(_) => Compared::Missing { array: true },
    }
}

/// The same of an index that has a value, or none.
pub fn access_at(heap: &Heap, array: Value, index: Option<Value>) -> Compared
    ensures { (r : Outcome Worth ℕ) → IsValue index r
        → compared_of result ≡ access_of heap.now.store (value_of array) r }
{
    match index {
        None => Compared::Nothing,
        Some(index) => access_in(heap, array, index.number()),
    }
}
