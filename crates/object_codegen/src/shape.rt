/// What a new block is for: an object of the class with this table's address and so many fields, or
/// an array of the length that was found.
#[derive(Clone, Copy, PartialEq, Eq, Debug)]
pub enum Shape {
    Fixed(u32, u32),
    Lengthy,
}
