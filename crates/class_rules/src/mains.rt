// Methods `main` by number.
use crate::method::MethodId;

/// A method `main` without parameters, and the offset of its name.
#[derive(Clone, Copy, Debug)]
pub struct Main {
    pub runs: MethodId,
    pub at: u32,
}
