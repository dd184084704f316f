// The addresses in the memory of a program. How many cells the machine itself has, and the words of
// a frame and of an object's header, are constants of rpp_words, which the loader shares.
ghost use Rattle.std.specs.Prelude.{◌≡◌};
ghost use Rattle.code_conventions.specs.Header.{header};

use pisa_isa::FIXED_CELLS;

/// The words before an object's fields, or of an array's elements: its class's table's address or
/// its length, and its count.
pub const HEADER_WORDS: u32 = pisa_isa::HEADER_WORDS;
/// The word of an object that counts the cells that refer to it.
pub const COUNT_WORD: u32 = 1;
/// The address of the main object: after the machine's own cells.
pub const MAIN_OBJECT: u32 = FIXED_CELLS;
/// The address of the main object's first field.
pub const FIRST_FIELD: u32 = MAIN_OBJECT + HEADER_WORDS;
/// The word of a class's table before its method slots: the class's number.
pub const TABLE_HEADER: u32 = 1;
/// The word of a frame that holds the link to the caller.
pub const LINK_WORD: u32 = 0;
/// The word of a frame that holds the caller's object.
pub const OBJECT_WORD: u32 = 1;
/// The word of a frame that holds the place of its routine.
pub const PLACE_WORD: u32 = 2;
/// The first word of a frame that holds a variable.
pub const FIRST_VARIABLE: u32 = 16;
/// The most variables of a method: parameters and nested locals.
pub const MOST_VARIABLES: u32 = 48;
/// The most frame words that expressions may take whose code is made together.
pub const EXPRESSION_WORDS: usize = 1_000;

/// The words of an object's or array's header: what it begins with, and how many cells refer to it.
pub fn header(head: u32, count: u32) -> [u32; 2]
    ensures { result ≡ header head count }
{
    [head, count]
}
