// What a check compares.
ghost use Rattle.std.specs.Prelude.{◌≡◌};
ghost use Rattle.source_store.specs.ValueView.{value_of};
ghost use Rattle.source_compared.specs.Comparisons.{first_of as first_of_two, to_be_zero as zero_wanted};
ghost use Rattle.source_compared.specs.ComparedView.{compared_of};

use source_store::{Head, Value};

/// What a check compares.
#[derive(Clone, Copy)]
pub enum Compared {
    /// A value, and whether it is to be true: a word that is not 0, or a reference that is not nil.
    Truth { found: Value, wanted: bool },
    /// A value, and the one that it is to be.
    Values { found: Value, wanted: Value },
    /// An index or a number of calls, and the limit that it is to be below.
    Below { found: Value, limit: usize },
    /// Nil, which is to be an array, or else an object.
    Missing { array: bool },
    /// A reference count, which is to be 1.
    Count { found: u64 },
    /// The size that a statement names, and the length of the array.
    Length { found: Value, wanted: usize },
    /// The size of a new array, which is to be at least 1.
    Size { found: Value },
    /// What an object is, and what it is to be.
    Heads { found: Head, wanted: Head },
    /// Nothing that is shown.
    Nothing,
}

/// The one of two checks that fails first.
pub fn first_of(first: Compared, second: Compared) -> Compared
    ensures { compared_of result ≡ first_of_two (compared_of first) (compared_of second) }
{
    match first {
        Compared::Nothing => second,
        Compared::Truth { .. }
        | Compared::Values { .. }
        | Compared::Below { .. }
        | Compared::Missing { .. }
        | Compared::Count { .. }
        | Compared::Length { .. }
        | Compared::Size { .. }
        | Compared::Heads { .. } => first,
    }
}

/// A value that is to be 0 or nil.
pub fn to_be_zero(value: Value) -> Compared
    ensures { compared_of result ≡ zero_wanted (value_of value) }
{
    Compared::Values {
        found: value,
        wanted: value.cleared(),
    }
}
