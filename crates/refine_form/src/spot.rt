// The storage slot of a variable.

/// A field of the current object, or a word of the current frame.
#[derive(Clone, Copy, PartialEq, Eq, Debug)]
pub enum Spot {
    /// The field with this number.
    Field(u32),
    /// The word of the frame with this number.
    Frame(u32),
}
