// The numbers of the faults, with which the machine traps, and their names.
ghost use Rattle.std.specs.Prelude.{◌≡◌};
ghost use Rattle.code_conventions.specs.Faults.{fault_name as name_of_fault};

/// The test of `fi` does not fit the side that ran.
pub const FI: u32 = 1;
/// The test of `from` is false at the entry, or true again.
pub const LOOP: u32 = 2;
/// A local variable does not have its closing value.
pub const DELOCAL: u32 = 3;
/// What is made or copied into is not nil.
pub const NOT_NIL: u32 = 4;
/// What is used is nil.
pub const NIL: u32 = 5;
/// An object that is deleted has another reference.
pub const COUNT: u32 = 6;
/// An object that is deleted has a field that is not 0.
pub const NOT_EMPTY: u32 = 7;
/// The heap has no block for what is made.
pub const HEAP_FULL: u32 = 8;
/// An index is not below the length of its array.
pub const INDEX: u32 = 9;
/// What is uncopied refers to another object.
pub const NOT_SAME: u32 = 10;
/// An object that is deleted has another class.
pub const CLASS_DIFFERS: u32 = 11;
/// An array that is deleted has another length.
pub const LENGTH_DIFFERS: u32 = 12;
/// The length of an array is out of range.
pub const LENGTH: u32 = 13;
/// A call would open one frame too many.
pub const TOO_DEEP: u32 = 14;
/// A cell whose word moved into a call was written during the call.
pub const TOUCHED: u32 = 15;
/// A place that changes is an element of an array that is read for the change.
pub const SHARED_ARRAY: u32 = 16;

/// The name of a fault, with a space before it. A number that is no fault has none.
pub fn fault_name(code: u32) -> &'static str
    ensures { result.now ≡ name_of_fault code }
{
    match code {
        FI => " Fi",
        LOOP => " Loop",
        DELOCAL => " Delocal",
        NOT_NIL => " NotNil",
        NIL => " Nil",
        COUNT => " Count",
        NOT_EMPTY => " NotEmpty",
        HEAP_FULL => " HeapFull",
        INDEX => " Index",
        NOT_SAME => " NotSame",
        CLASS_DIFFERS => " ClassDiffers",
        LENGTH_DIFFERS => " LengthDiffers",
        LENGTH => " Length",
        TOO_DEEP => " TooDeep",
        TOUCHED => " Touched",
        SHARED_ARRAY => " SharedArray",
        _ => "",
    }
}
