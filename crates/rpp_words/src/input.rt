// What a run has in addition to its image.

/// The highest order of a heap.
pub const MOST_HEAP: u64 = 20;
/// The deepest nesting of calls in a run.
pub const MOST_DEEP: u32 = 8192;
/// The data cells before the static ones.
pub const FIXED_CELLS: u32 = 40;
/// The words before an object's fields, or of an array's elements: its class's table's address or
/// its length, and its count.
pub const HEADER_WORDS: u32 = 2;
/// The words of one frame of the stack.
pub const FRAME_WORDS: u32 = 512;

/// The size of a run's memory: the heap has `2 ^ heap` words, the stack `FRAME_WORDS * deep`.
#[derive(Clone, Copy, Debug, PartialEq, Eq)]
pub struct Limits {
    /// The order of the heap.
    pub heap: u32,
    /// How many calls may be open, that of `main` included.
    pub deep: u32,
}

/// A field of the main object with the word that it begins with.
#[derive(Clone, Copy, Debug, PartialEq, Eq)]
pub struct FieldWord {
    /// The field's number among the fields of the main class, from 0, inherited ones first.
    pub field: u32,
    /// The word.
    pub word: u32,
}

/// The fields that do not begin with 0.
#[derive(Debug, Drop)]
pub struct Input {
    /// One entry a field, in the order in which the words are set.
    pub words: Vec<FieldWord>,
}
