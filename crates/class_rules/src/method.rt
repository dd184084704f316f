// Methods by number.

/// A method, by the number of the class that declares it and its own number there.
#[derive(Clone, Copy, Debug, PartialEq, Eq)]
pub struct MethodId {
    pub class: u32,
    pub method: u32,
}
