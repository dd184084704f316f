// What the registers are for. Between statements all are 0 but OBJECT and FRAME.

/// The branch register's copy while a routine is entered and left: the link to its caller.
pub const LINK: u8 = 2;
/// The address of the current object.
pub const OBJECT: u8 = 3;
/// The address of the current frame.
pub const FRAME: u8 = 4;
/// The address of a word that is found.
pub const ADDRESS: u8 = 5;
/// The word that was taken out of a cell.
pub const CONTENT: u8 = 6;
/// A register that is always 0.
pub const NOUGHT: u8 = 7;
/// A word that moves from one cell into another.
pub const MOVED: u8 = 8;
/// Whether the left operand is true, or the start of a walk.
pub const LEFT_TRUTH: u8 = 8;
/// Whether the right operand is true, or the end of a walk.
pub const RIGHT_TRUTH: u8 = 9;
/// What a check of an operand found.
pub const OUTCOME: u8 = 10;
/// The flag that a test sets.
pub const FLAG: u8 = 11;
/// The word that a value gives, the order of a block that the allocator takes, and the place of a
/// method that is entered.
pub const VALUE: u8 = 12;
/// The address of a block that the allocator took.
pub const BLOCK: u8 = 13;
/// The address of a place, out of the allocator's way.
pub const AT_PLACE: u8 = 14;
/// The length of an array, out of the allocator's way.
pub const AT_LENGTH: u8 = 15;
/// The left operand, or an index.
pub const LEFT: u8 = 16;
/// The right operand, or an array.
pub const RIGHT: u8 = 17;
/// The word of an element.
pub const ITEM: u8 = 18;
/// The amount by which a place changes.
pub const AMOUNT: u8 = 19;
/// The address of a place that is found.
pub const PLACE: u8 = 20;
/// The address of a second place that is found.
pub const OTHER_PLACE: u8 = 21;
/// The word of the first of two places that are swapped, or a reference that is taken.
pub const FIRST_WORD: u8 = 22;
/// The word of the second place.
pub const SECOND_WORD: u8 = 23;
/// The truth of a value.
pub const TRUTH: u8 = 24;
