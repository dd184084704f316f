// The requests to the heap.

/// A request to the heap.
#[derive(Clone, Copy)]
pub enum Request {
    /// A block of this order for a new name.
    Taken { name: u32, order: u32 },
    /// The block of a name back.
    Given { name: u32, order: u32 },
}
