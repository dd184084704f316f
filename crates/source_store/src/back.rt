// The requests to a heap undone.
ghost use Rattle.std.specs.Prelude.{◌≡◌, ◌-◌, ◌<◌, ◌^◌, IfOk, IfErr, OnErr, length, Some, None, slice_get, take, if◌then◌else◌};
ghost use Rattle.std.specs.Option.{option_map};
ghost use Rattle.source_store.specs.ValueView.{values_of, kept_head};
ghost use Rattle.source_store.specs.HeapView.{before_take, before_give, is_free_slot};

use crate::changes::block_of;
use crate::heap::{Heap, order_of};
use crate::lack::Lack;
use crate::object::{Head, Object};
use crate::requests::Request;
use crate::value::Value;

impl Heap {
    /// The newest request is undone, if it was for a new object: the object goes, and its block
    /// goes back. It returns whether it was. It is refused if that object is not the last of the
    /// table, with a block of the order that was asked for.
    pub fn untake(&mut self) -> Result<bool, Lack>
        ensures untaken { IfOk result (λ was. before_take self.old self.old.log
            ≡ (if was then Some self.new else None)) }
        ensures stays { OnErr result (self.new ≡ self.old) }
        ensures full { IfErr result (λ why. why ≡ Lack.Full) }
    {
        match newest(&self.log) {
            None => Ok(false),
            Some(Request::Given { .. }) => Ok(false),
            Some(Request::Taken { name, order }) => match block_of(&self.objects, name as usize) {
                None => Err(Lack::Full),
                Some((block, size)) => {
                    if name as usize + 1 != self.objects.len() || order != order_of(size as u32) {
                        return Err(Lack::Full);
                    }
                    self.book.give(order, block);
                    shorten(&mut self.objects);
                    forget(&mut self.log);
                    Ok(true)
                }
            },
        }
    }

    /// The newest request is undone, if it gave an object back: the object lives again under its
    /// name, with one variable and these cells, in its block. It returns the name. It is refused if
    /// something lives under the object id, or the cells are of another order.
    pub fn ungive(&mut self, head: Head, cells: Vec<Value>) -> Result<Option<u32>, Lack>
        requires small { length cells.items < 2 ^ 31 }
        ensures ungiven { IfOk result (λ name. before_give self.old (kept_head head)
            (values_of cells.items) self.old.log ≡ option_map (λ n. (n, self.new)) name) }
        ensures stays { OnErr result (self.new ≡ self.old) }
        ensures full { IfErr result (λ why. why ≡ Lack.Full) }
    {
        match newest(&self.log) {
            None => Ok(None),
            Some(Request::Taken { .. }) => Ok(None),
            Some(Request::Given { name, order }) => {
                if !is_free(&self.objects, name as usize) || order != order_of(cells.len() as u32) {
                    return Err(Lack::Full);
                }
                match self.book.take(order) {
                    None => Err(Lack::Full),
                    Some(block) => {
                        let object = Object {
                            head,
                            count: 1,
                            cells,
                            block: Some(block),
                        };
                        fill(&mut self.objects[name as usize], object);
                        forget(&mut self.log);
                        Ok(Some(name))
                    }
                }
            }
        }
    }
}

/// The newest request.
fn newest(log: &[Request]) -> Option<Request>
    ensures { result ≡ slice_get log.now (length log.now - 1) }
{
    match log.last() {
        None => None,
        Some(request) => Some(*request),
    }
}

/// Whether this is a place of the table where nothing lives.
fn is_free(objects: &[Option<Object>], name: usize) -> bool
    ensures { result ≡ is_free_slot (slice_get objects.now name) }
{
    match objects.get(name) {
        None => false,
        Some(slot) => slot.is_none(),
    }
}

/// The last object of the table goes, if there is one.
fn shorten(objects: &mut Vec<Option<Object>>)
    ensures { objects.new.items ≡ take (length objects.old.items - 1) objects.old.items }
{
    let _gone = objects.pop();
}

/// The newest request goes, if there is one.
fn forget(log: &mut Vec<Request>)
    ensures { log.new.items ≡ take (length log.old.items - 1) log.old.items }
{
    let _request = log.pop();
}

fn fill(slot: &mut Option<Object>, object: Object)
    ensures { slot.new ≡ Some object }
{
    *slot = Some(object);
}
