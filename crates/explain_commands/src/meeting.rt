// The order in which the objects and arrays of a store are met.
ghost use Rattle.std.specs.Prelude.{◌≡◌, ◌<◌, ◌^◌, ◌++◌, [], ◌∷◌, IfOk, OnOk, IfSome, nat_eq, slice_get};
ghost use Rattle.std.specs.List.{position};
ghost use Rattle.store_report.specs.roopl_semantics.Store.{object_at};
ghost use Rattle.store_report.specs.roopl_semantics.Report.{newly_met, numbered as numbered_in};
ghost use Rattle.source_meaning.specs.source_store.ValueView.{value_of, values_of};

use indexmap::IndexSet;
use run_settings::NoMemory;
use source_meaning::{Heap, Value};
use std::alloc::Global;

/// The place of a name among these.
pub fn place_of(names: &IndexSet<u32>, name: u32) -> Option<usize>
    ensures place { result ≡ position (nat_eq name) names.now.keys }
    ensures small { IfSome result (λ place. place < 2 ^ 63) }
{
    let _few = names.len(); // proof: bounds the length
    names.get_index_of(&name)
}

// The name that a value is, if it is not met yet.
#[tactic(auto, using(crate::proofs::Walked::met_key))]
fn meet_value(names: &mut IndexSet<u32>, value: Value) -> Result<(), NoMemory>
    ensures { OnOk result (names.new.keys ≡ names.old.keys
        ++ newly_met names.old.keys (value_of value ∷ [])) }
{
    match value {
        Value::Word(_) => Ok(()),
        Value::Nil => Ok(()),
        Value::Name(name) => match names.insert(name) {
            Err(_) => Err(NoMemory),
            Ok(_) => Ok(()),
        },
    }
}

fn value_at(cells: &[Value], at: usize) -> Option<Value>
    ensures { result ≡ slice_get cells.now at }
{
    match cells.get(at) {
        None => None,
        Some(value) => Some(*value),
    }
}

// The names that cells hold and that are not met yet.
fn meet(names: &mut IndexSet<u32>, cells: &[Value]) -> Result<(), NoMemory>
    ensures { OnOk result (names.new.keys ≡ names.old.keys
        ++ newly_met names.old.keys (values_of cells.now)) }
{
    let size = cells.len();
    for at in 0..size {
        match value_at(cells, at) {
            None => return Ok(()),
            Some(value) => meet_value(names, value)?,
        }
    }
    Ok(())
}

/// The fields or elements of an object or array.
pub fn cells_at(heap: &Heap, name: u32) -> &[Value]
    ensures { values_of result.now ≡ (object_at heap.now.store name).cells }
{
    match heap.object(name) {
        None => &[],
        Some(object) => &object.cells,
    }
}

// The same for the cells of an object or array.
fn meet_object(names: &mut IndexSet<u32>, heap: &Heap, name: u32) -> Result<(), NoMemory>
    ensures { OnOk result (names.new.keys ≡ names.old.keys
        ++ newly_met names.old.keys (object_at heap.now.store name).cells) }
{
    meet(names, cells_at(heap, name))
}

/// The names that are reached from the main object, in the order of their numbers.
pub fn numbered(alloc: Global, heap: &Heap) -> Result<IndexSet<u32>, NoMemory>
    ensures { IfOk result (λ names. names.keys ≡ numbered_in heap.now.store) }
{
    let mut names = IndexSet::new(alloc);
    meet_object(&mut names, heap, 1)?;
    let size = heap.live();
    for next in 0..size {
        match name_at(&names, next) {
            None => return Ok(names),
            Some(name) => meet_object(&mut names, heap, name)?,
        }
    }
    Ok(names)
}

/// The name at a place among these.
pub fn name_at(names: &IndexSet<u32>, at: usize) -> Option<u32>
    ensures { result ≡ slice_get names.now.keys at }
{
    match names.get_index(at) {
        None => None,
        Some(name) => Some(*name),
    }
}
