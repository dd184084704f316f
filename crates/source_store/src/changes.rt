// The changes of a heap.
ghost use Rattle.std.specs.Prelude.{◌≡◌, ◌+◌, ◌-◌, ◌≤◌, ◌<◌, ◌^◌, ◌∷◌, suc, None, IfOk, IfErr, OnOk, OnErr, length, slice_get, Some};
ghost use Rattle.std.specs.Option.{option_map};
ghost use Rattle.meaning_machine.specs.buddy_book.Place.{Given, count_taken};
ghost use Rattle.meaning_machine.specs.roopl_semantics.Store.{changed_at, object_at, without};
ghost use Rattle.meaning_machine.specs.roopl_semantics.Execution.{order_of_cells, one_less};
ghost use Rattle.source_store.specs.ValueView.{value_of, values_of, kept_head, object_of, with_part, with_count};
ghost use Rattle.source_store.specs.HeapView.{live_in, store_of, live_block_in, live_block_at, SameBlocks, Took};

use crate::heap::{Heap, order_of};
use crate::lack::Lack;
use crate::object::{Head, Object, put_value};
use crate::requests::Request;
use crate::value::Value;

impl Heap {
    /// Another value in a field or element.
    pub fn set_part(&mut self, name: u32, index: usize, value: Value)
        ensures { self.new ≡ record self.old
            { store = changed_at self.old.store name (with_part index (value_of value)) } }
    {
        set_part(&mut self.objects, name, index, value);
    }

    /// One more variable refers to the object of a name. If its reference count is as high as
    /// counts go, that is refused.
    pub fn raise(&mut self, name: u32) -> Result<(), Lack>
        ensures raised { OnOk result (self.new ≡ record self.old
            { store = changed_at self.old.store name (with_count suc) }) }
        ensures stays { OnErr result (self.new ≡ self.old) }
        ensures full { IfErr result (λ why. why ≡ Lack.Full) }
        ensures most { OnErr result ((object_at self.old.store name).count ≡ 2 ^ 64 - 1) }
    {
        raise_at(&mut self.objects, name)
    }

    /// One variable less refers to the object of a name.
    pub fn lower(&mut self, name: u32)
        ensures { self.new ≡ record self.old
            { store = changed_at self.old.store name (with_count one_less) } }
    {
        lower_at(&mut self.objects, name);
    }

    /// A new object or array with these cells and the next name, if the heap has a block for it.
    /// If no object id is left, that is refused as `Full`.
    pub fn take(&mut self, head: Head, cells: Vec<Value>) -> Result<Option<u32>, Lack>
        requires small { length cells.items < 2 ^ 31 }
        ensures took { IfOk result (λ name. Took name self.old self.new (kept_head head)
            (values_of cells.items)) }
        ensures stays { OnErr result (self.new ≡ self.old) }
        ensures full { IfErr result (λ why. why ≡ Lack.Full
            → 2 ^ 32 ≤ 3 + count_taken self.old.log) }
    {
        let name = self.objects.len();
        if name >= u32::MAX as usize {
            return Err(Lack::Full);
        }
        let order = order_of(cells.len() as u32);
        self.objects.reserve(1)?;
        self.log.reserve(1)?;
        match self.book.take(order) {
            None => Ok(None),
            Some(block) => {
                self.objects.push_reserved(Some(Object {
                    head,
                    count: 1,
                    cells,
                    block: Some(block),
                }));
                self.log.push_reserved(Request::Taken {
                    name: name as u32,
                    order,
                });
                Ok(Some(name as u32))
            }
        }
    }

    /// The object of a name goes, and its block goes back. It is refused as `Full` for an object id
    /// without a block.
    pub fn give(&mut self, name: u32) -> Result<(), Lack>
        ensures given { OnOk result (self.new ≡ record self.old {
          store = without self.old.store name;
          log = Given name (order_of_cells (length (object_at self.old.store name).cells))
              ∷ self.old.log;
        }) }
        ensures stays { OnErr result (self.new ≡ self.old) }
    {
        self.log.reserve(1)?;
        match block_of(&self.objects, name as usize) {
            None => Err(Lack::Full),
            Some((block, size)) => {
                let order = order_of(size as u32);
                self.book.give(order, block);
                clear(&mut self.objects[name as usize]);
                self.log.push_reserved(Request::Given { name, order });
                Ok(())
            }
        }
    }
}

fn clear(slot: &mut Option<Object>)
    ensures { slot.new ≡ None }
{
    *slot = None;
}

fn block_in_slot(slot: &Option<Object>) -> Option<(u32, usize)>
    ensures { result ≡ live_block_in (Some slot.now) }
{
    match slot {
        None => None,
        Some(object) => match object.block {
            None => None,
            Some(block) => Some((block, object.cells.len())),
        },
    }
}

/// The address of the block of a name, and the number of its cells.
pub(crate) fn block_of(objects: &[Option<Object>], name: usize) -> Option<(u32, usize)>
    ensures { result ≡ live_block_at objects.now name }
{
    match objects.get(name) {
        None => None,
        Some(slot) => block_in_slot(slot),
    }
}

fn put(object: &mut Object, index: usize, value: Value)
    ensures object { object_of object.new ≡ with_part index (value_of value) (object_of object.old) }
    ensures block { live_block_in (Some (Some object.new)) ≡ live_block_in (Some (Some object.old)) }
{
    put_value(&mut object.cells, index, value);
}

fn put_in_slot(slot: &mut Option<Object>, index: usize, value: Value)
    ensures object { live_in (Some slot.new)
        ≡ option_map (with_part index (value_of value)) (live_in (Some slot.old)) }
    ensures block { live_block_in (Some slot.new) ≡ live_block_in (Some slot.old) }
{
    match slot {
        None => {}
        Some(object) => put(object, index, value),
    }
}

/// Another value in a field or element.
fn set_part(objects: &mut Vec<Option<Object>>, name: u32, index: usize, value: Value)
    ensures store { store_of objects.new.items
        ≡ changed_at (store_of objects.old.items) name (with_part index (value_of value)) }
    ensures blocks { SameBlocks objects.old.items objects.new.items }
{
    if (name as usize) < objects.len() {
        put_in_slot(&mut objects[name as usize], index, value);
    }
}

fn raise(object: &mut Object) -> Result<(), Lack>
    ensures object { OnOk result (object_of object.new ≡ with_count suc (object_of object.old)) }
    ensures stays { OnErr result (object.new ≡ object.old) }
    ensures full { IfErr result (λ why. why ≡ Lack.Full) }
    ensures most { OnErr result (object.old.count ≡ 2 ^ 64 - 1) }
    ensures block { live_block_in (Some (Some object.new)) ≡ live_block_in (Some (Some object.old)) }
{
    if object.count == u64::MAX {
        return Err(Lack::Full);
    }
    object.count += 1;
    Ok(())
}

fn raise_in_slot(slot: &mut Option<Object>) -> Result<(), Lack>
    ensures object { OnOk result (live_in (Some slot.new)
        ≡ option_map (with_count suc) (live_in (Some slot.old))) }
    ensures stays { OnErr result (slot.new ≡ slot.old) }
    ensures full { IfErr result (λ why. why ≡ Lack.Full) }
    ensures most { OnErr result (option_map (λ o. o.count) (live_in (Some slot.old))
        ≡ Some (2 ^ 64 - 1)) }
    ensures block { live_block_in (Some slot.new) ≡ live_block_in (Some slot.old) }
{
    match slot {
        None => Ok(()),
        Some(object) => raise(object),
    }
}

/// One more variable refers to the object of a name.
fn raise_at(objects: &mut Vec<Option<Object>>, name: u32) -> Result<(), Lack>
    ensures store { OnOk result (store_of objects.new.items
        ≡ changed_at (store_of objects.old.items) name (with_count suc)) }
    ensures stays { OnErr result (objects.new.items ≡ objects.old.items) }
    ensures full { IfErr result (λ why. why ≡ Lack.Full) }
    ensures most { OnErr result (option_map (λ o. o.count)
        (live_in (slice_get objects.old.items name)) ≡ Some (2 ^ 64 - 1)) }
    ensures blocks { SameBlocks objects.old.items objects.new.items }
{
    if (name as usize) >= objects.len() {
        return Ok(());
    }
    raise_in_slot(&mut objects[name as usize])
}

fn lower(object: &mut Object)
    ensures object { object_of object.new ≡ with_count one_less (object_of object.old) }
    ensures block { live_block_in (Some (Some object.new)) ≡ live_block_in (Some (Some object.old)) }
{
    object.count = object.count.saturating_sub(1);
}

fn lower_in_slot(slot: &mut Option<Object>)
    ensures object { live_in (Some slot.new)
        ≡ option_map (with_count one_less) (live_in (Some slot.old)) }
    ensures block { live_block_in (Some slot.new) ≡ live_block_in (Some slot.old) }
{
    match slot {
        None => {}
        Some(object) => lower(object),
    }
}

/// One variable less refers to the object of a name.
fn lower_at(objects: &mut Vec<Option<Object>>, name: u32)
    ensures store { store_of objects.new.items
        ≡ changed_at (store_of objects.old.items) name (with_count one_less) }
    ensures blocks { SameBlocks objects.old.items objects.new.items }
{
    if (name as usize) < objects.len() {
        lower_in_slot(&mut objects[name as usize]);
    }
}
