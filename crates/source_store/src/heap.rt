// The heap of a run, and what it returns.
ghost use Rattle.std.specs.Prelude.{◌≡◌, ℕ, ◌+◌, ◌<◌, ◌≤◌, ◌^◌, ◌∷◌, [], IfOk, length, slice_get, None, Some, nat_lt};
ghost use Rattle.std.specs.Option.{unwrap_or, option_map};
ghost use Rattle.meaning_machine.specs.roopl_semantics.Store.{Nil, main_name, object_at, object_named, class_of_head};
ghost use Rattle.meaning_machine.specs.roopl_semantics.Execution.{order_of_cells, is_of_class, all_zero};
ghost use Rattle.source_store.specs.ValueView.{value_of, values_of, kept_head, object_of};
ghost use Rattle.source_store.specs.HeapView.{live_in, live_at, listed, store_of};
ghost use Rattle.meaning_machine.specs.buddy_book.Place.{count_taken, place};

use crate::object::{Head, Object, cell_in, is_all_zero};
use crate::requests::Request;
use crate::value::Value;
use meaning_machine::{Book, HEADER_WORDS, NoMemory, order_for};
use std::alloc::Global;
use std::marker::Model;

/// The address of the heap in the allocator state: only distances from it count.
const BASE: u32 = 1 << 21;

/// The objects and arrays of a run by their names, the free blocks of its heap, and its requests.
#[derive(Drop)]
pub struct Heap {
    /// The order of the heap.
    pub(crate) order: u32,
    /// What lives at each name; none lives at 0.
    pub(crate) objects: Vec<Option<Object>>,
    /// The free blocks.
    pub(crate) book: Book,
    /// The requests, the newest last.
    pub(crate) log: Vec<Request>,
}

impl Model for Heap {
    ghost use Rattle.source_store.specs.HeapView.{Kept, kept_of, IsHeap};

    ghost Value = { Kept };

    ghost view = { λ t. kept_of t.order t.objects.items t.log.items };

    ghost invariant = { λ t. IsHeap t.order t.book t.objects.items t.log.items };
}

impl Heap {
    /// The heap of this order before a run, with only the main object.
    pub fn new(alloc: Global, order: u32, head: Head, cells: Vec<Value>) -> Result<Heap, NoMemory>
        requires from { 1 ≤ order }
        requires to { order ≤ 20 }
        ensures { IfOk result (λ heap. heap
            ≡ record {
              order = order;
              store = (
                main_name,
                record {
                  head = kept_head head;
                  count = 1;
                  cells = values_of cells.items;
                },
              ) ∷ [];
              log = [];
            }) }
    {
        let book = Book::new(alloc, order, BASE)?;
        let mut objects = Vec::new(alloc);
        objects.push(None)?;
        objects.push(Some(Object {
            head,
            count: 1,
            cells,
            block: None,
        }))?;
        Ok(Heap {
            order,
            objects,
            book,
            log: Vec::new(alloc),
        })
    }

    /// The live object of a name.
    pub fn object(&self, name: u32) -> Option<&Object>
        ensures { option_map (λ object. object_of object.now) result ≡ object_named self.now.store name }
    {
        object_in(&self.objects, name as usize)
    }

    /// A name above that of each object, also of those that are gone.
    pub fn names(&self) -> usize
        ensures few { result < 2 ^ 32 }
        ensures above { result ≡ 2 + count_taken self.now.log }
        ensures past { (name : ℕ) → result ≤ name → object_named self.now.store name ≡ None }
    {
        places_of(&self.objects)
    }

    /// How many objects and arrays live, the main object among them.
    pub fn live(&self) -> usize
        ensures few { result < 2 ^ 32 }
        ensures length { result ≡ length self.now.store }
    {
        live_among(&self.objects)
    }

    /// The class of the object of a name, or 0.
    pub fn class_of(&self, name: u32) -> u32
        ensures { result ≡ class_of_head (object_at self.now.store name).head }
    {
        match self.object(name) {
            None => 0,
            Some(object) => object.head.class(),
        }
    }

    /// The field or element of an object or array.
    pub fn part(&self, name: u32, index: usize) -> Value
        ensures { value_of result ≡ unwrap_or
            (slice_get (object_at self.now.store name).cells index) Nil }
    {
        match self.object(name) {
            None => Value::Nil,
            Some(object) => cell_in(&object.cells, index),
        }
    }

    /// The number of fields or elements.
    pub fn length_of(&self, name: u32) -> usize
        ensures { result ≡ length (object_at self.now.store name).cells }
    {
        match self.object(name) {
            None => 0,
            Some(object) => object.cells.len(),
        }
    }

    /// How many variables refer to the object of a name.
    pub fn count_of(&self, name: u32) -> u64
        ensures { result ≡ (object_at self.now.store name).count }
    {
        match self.object(name) {
            None => 0,
            Some(object) => object.count,
        }
    }

    /// Whether a name is that of an object of the class of this number, if there is one.
    pub fn is_of_class(&self, name: u32, class: Option<u32>) -> bool
        ensures { result ≡ is_of_class (object_at self.now.store name).head class }
    {
        match self.object(name) {
            None => false,
            Some(object) => object.head.is_of_class(class),
        }
    }

    /// Whether all fields or elements are 0 or nil.
    pub fn is_empty(&self, name: u32) -> bool
        ensures { result ≡ all_zero (object_at self.now.store name).cells }
    {
        match self.object(name) {
            None => true,
            Some(object) => is_all_zero(&object.cells),
        }
    }

    /// Whether the order of a block for so many cells is above the heap's.
    pub fn is_too_large(&self, size: u32) -> bool
        requires { size < 2 ^ 31 }
        ensures { result ≡ nat_lt self.now.order (order_of_cells size) }
    {
        self.order < order_of(size)
    }
}

/// The order of a block for so many cells.
#[tactic(auto, using(crate::proofs::Blocks::order_is))]
pub(crate) fn order_of(size: u32) -> u32
    requires { size < 2 ^ 31 }
    ensures { result ≡ order_of_cells size }
{
    order_for(size as u64 + HEADER_WORDS as u64)
}

// How many places the table has.
fn places_of(objects: &[Option<Object>]) -> usize
    ensures { result ≡ length objects.now }
{
    objects.len()
}

// How many objects live at a place of the table: one or none.
fn live_there(objects: &[Option<Object>], name: usize) -> usize
    ensures { result ≡ length (listed name (live_at objects.now name) []) }
{
    match object_in(objects, name) {
        None => 0,
        Some(_object) => 1,
    }
}

fn live_among(objects: &[Option<Object>]) -> usize
    ensures { result ≡ length (store_of objects.now) }
{
    let mut count = 0;
    for name in 0..objects.len() {
        count += live_there(objects, name);
    }
    count
}

fn in_slot(slot: &Option<Object>) -> Option<&Object>
    ensures { option_map (λ object. object_of object.now) result ≡ live_in (Some slot.now) }
{
    match slot {
        None => None,
        Some(object) => Some(object),
    }
}

fn object_in(objects: &[Option<Object>], name: usize) -> Option<&Object>
    ensures { option_map (λ object. object_of object.now) result ≡ live_in (slice_get objects.now name) }
{
    match objects.get(name) {
        None => None,
        Some(slot) => in_slot(slot),
    }
}
