// The objects and arrays that a run leaves.
ghost use Rattle.std.specs.Prelude.{◌≡◌, ◌<◌, ◌≤◌, ◌^◌, ℕ, IfOk, length, map, slice_get, Some, None};
ghost use Rattle.std.specs.Option.{unwrap_or, option_map};
ghost use Rattle.source_execution.specs.roopl_semantics.Store.{Nil, main_name, number_of, object_at, object_named};
ghost use Rattle.source_execution.specs.roopl_semantics.Laws.{CountsReferences};
ghost use Rattle.source_execution.specs.roopl_semantics.Report.{live_count};
ghost use Rattle.source_execution.specs.source_store.ValueView.{object_of, values_of};
ghost use Rattle.source_meaning.specs.Numbers.{numbers_of, seen_object, AreNumbers};

use source_execution::{Head, Heap, NoMemory, Value};
use std::alloc::Global;
use std::marker::Model;

/// An object or array, its fields or elements as numbers: a word, a name, or 0 for nil.
#[derive(Debug, Drop)]
pub struct Object {
    /// What it is.
    pub head: Head,
    /// How many variables, fields and elements refer to it.
    pub count: u64,
    /// The number in each field or element.
    pub cells: Vec<u32>,
}

/// The objects and arrays that a run leaves, by their names. The main object's name is 1. No call
/// is open, so the count of every other one is the number of fields and elements that hold its name.
#[derive(Drop)]
pub struct Store {
    heap: Heap,
    objects: Vec<Option<Object>>,
    live: u32,
}

impl Model for Store {
    ghost use Rattle.std.specs.Prelude.{◌≡◌};
    ghost use Rattle.source_execution.specs.roopl_semantics.Store.{Store};
    ghost use Rattle.source_execution.specs.roopl_semantics.Laws.{CountsReferences};
    ghost use Rattle.source_execution.specs.roopl_semantics.Report.{live_count};
    ghost use Rattle.source_meaning.specs.Numbers.{AreNumbers};

    ghost Value = { Store };

    ghost view = { λ t. t.heap.store };

    ghost invariant = { λ t. AreNumbers t.heap t.objects.items × CountsReferences t.heap.store
        × (t.live ≡ live_count t.heap.store) };
}

impl Store {
    /// The store of a heap at the end of a run.
    pub(crate) fn seal(alloc: Global, heap: Heap) -> Result<Store, NoMemory>
        requires { CountsReferences heap.store }
        ensures { IfOk result (λ store. store ≡ heap.store) }
    {
        let objects = all_numbers(alloc, &heap)?;
        let live = live_number(&heap);
        Ok(Store {
            heap,
            objects,
            live,
        })
    }

    /// The object or array of a name, none if the name is not in the store.
    pub fn object(&self, name: u32) -> Option<&Object>
        ensures object { option_map (λ object. seen_object object.now) result
            ≡ option_map numbers_of (object_named self.now name) }
        ensures counts { CountsReferences self.now }
    {
        object_in(&self.objects, name as usize)
    }

    /// The number in a field of the main object.
    pub fn main_field(&self, field: u32) -> u32
        requires { field < length (object_at self.now main_name).cells }
        ensures { result ≡ number_of
            (unwrap_or (slice_get (object_at self.now main_name).cells field) Nil) }
    {
        self.heap.part(1, field as usize).number()
    }

    /// How many objects and arrays are live except the main object.
    pub fn live(&self) -> u32
        ensures { result ≡ live_count self.now }
    {
        self.live
    }

    /// The objects and arrays as a run keeps them.
    pub fn heap(&self) -> &Heap
        ensures { result.now.store ≡ self.now }
    {
        &self.heap
    }
}

fn in_slot(slot: &Option<Object>) -> Option<&Object>
    ensures { option_map (λ object. seen_object object.now) result ≡ option_map seen_object slot.now }
{
    match slot {
        None => None,
        Some(object) => Some(object),
    }
}

fn object_in(objects: &[Option<Object>], name: usize) -> Option<&Object>
    ensures { option_map (λ object. seen_object object.now) result
        ≡ option_map seen_object (unwrap_or (slice_get objects.now name) None) }
{
    match objects.get(name) {
        None => None,
        Some(slot) => in_slot(slot),
    }
}

// The numbers of these values.
fn numbers(alloc: Global, values: &[Value]) -> Result<Vec<u32>, NoMemory>
    ensures { IfOk result (λ numbers. numbers.items ≡ map number_of (values_of values.now)) }
{
    let mut numbers = Vec::new(alloc);
    for value in values {
        numbers.push(value.number())?;
    }
    Ok(numbers)
}

// An object or array by its numbers.
fn with_numbers(alloc: Global, object: &source_execution::Object) -> Result<Object, NoMemory>
    ensures { IfOk result (λ shown. seen_object shown ≡ numbers_of (object_of object.now)) }
{
    Ok(Object {
        head: object.head,
        count: object.count,
        cells: numbers(alloc, &object.cells)?,
    })
}

// What is live at a name, by its numbers.
fn numbers_at(alloc: Global, heap: &Heap, name: usize) -> Result<Option<Object>, NoMemory>
    requires { name < 2 ^ 32 }
    ensures { IfOk result (λ shown. option_map seen_object shown
        ≡ option_map numbers_of (object_named heap.now.store name)) }
{
    match heap.object(name as u32) {
        None => Ok(None),
        Some(object) => Ok(Some(with_numbers(alloc, object)?)),
    }
}

// All that is live, by its numbers.
fn all_numbers(alloc: Global, heap: &Heap) -> Result<Vec<Option<Object>>, NoMemory>
    ensures { IfOk result (λ objects. AreNumbers heap.now objects.items) }
{
    let mut objects = Vec::new(alloc);
    for name in 0..heap.names() {
        objects.push(numbers_at(alloc, heap, name)?)?;
    }
    Ok(objects)
}

// How many are live except the main object.
fn live_number(heap: &Heap) -> u32
    ensures { result ≡ live_count heap.now.store }
{
    let live = heap.live();
    live.saturating_sub(1) as u32
}
