// Objects and arrays.
ghost use Rattle.std.specs.Prelude.{◌≡◌, slice_get, slice_set};
ghost use Rattle.std.specs.Option.{unwrap_or};
ghost use Rattle.meaning_machine.specs.roopl_semantics.Store.{Nil, class_of_head};
ghost use Rattle.meaning_machine.specs.roopl_semantics.Execution.{is_of_class, all_zero};
ghost use Rattle.source_store.specs.ValueView.{value_of, values_of, kept_head};

use crate::value::Value;

/// An object of a class, or an array of a length.
#[derive(Clone, Copy, Debug, PartialEq, Eq)]
pub enum Head {
    /// An object of the class of this number.
    Class(u32),
    /// An array of words.
    Ints(u32),
    /// An array of references to objects of a class.
    Objects { class: u32, length: u32 },
}

impl Head {
    /// The number of an object's class, or 0.
    pub fn class(self) -> u32
        ensures { result ≡ class_of_head (kept_head self) }
    {
        match self {
            Head::Class(class) => class,
            Head::Ints(_) => 0,
            Head::Objects { .. } => 0,
        }
    }

    /// Whether this is an object of the class of this number, if there is one.
    pub fn is_of_class(self, named: Option<u32>) -> bool
        ensures { result ≡ is_of_class (kept_head self) named }
    {
        match self {
            Head::Class(class) => match named {
                None => false,
                Some(named) => class == named,
            },
            Head::Ints(_) => false,
            Head::Objects { .. } => false,
        }
    }
}

/// A live object or array.
#[derive(Drop)]
pub struct Object {
    /// What it is.
    pub head: Head,
    /// How many variables refer to it.
    pub count: u64,
    /// Its fields or elements.
    pub cells: Vec<Value>,
    /// The address of its block; the main object has none.
    pub(crate) block: Option<u32>,
}

/// The value at a place, or nil past the end.
pub(crate) fn cell_in(cells: &[Value], index: usize) -> Value
    ensures { value_of result ≡ unwrap_or (slice_get (values_of cells.now) index) Nil }
{
    match cells.get(index) {
        None => Value::Nil,
        Some(value) => *value,
    }
}

/// Whether all these values are 0 or nil.
pub(crate) fn is_all_zero(cells: &[Value]) -> bool
    ensures { result ≡ all_zero (values_of cells.now) }
{
    for cell in cells {
        if !cell.is_zero() {
            return false;
        }
    }
    true
}

/// Another value at a place, if there is one.
#[tactic(auto, using(std::proofs::lemmas::List::set_past))]
pub(crate) fn put_value(values: &mut Vec<Value>, index: usize, value: Value)
    ensures { values.new.items ≡ slice_set values.old.items index value }
{
    if index < values.len() {
        values[index] = value;
    }
}
