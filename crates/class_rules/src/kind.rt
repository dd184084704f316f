// Types with their classes by number.

/// The type of an expression: an int, `nil`, an object of a class, or an array. Classes are named
/// by their numbers.
#[derive(Clone, Copy, Debug, PartialEq, Eq)]
pub enum Kind {
    Int,
    Nil,
    Class(u32),
    IntArray,
    ClassArray(u32),
}
