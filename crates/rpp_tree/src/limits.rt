// The limits of a source.

/// The most bytes of a source text. Each place in it is below this number.
pub const MOST_BYTES: u32 = 1_048_576;

/// The most tokens of a source text.
pub const MOST_TOKENS: u32 = 20_000;

/// The most expression nodes of one statement.
pub const MOST_NODES: u32 = 64;

/// The most elements that are nested one in the index of the next: each has a node, so this is no
/// further limit than `MOST_NODES`.
pub const MOST_INDEX_DEPTH: u32 = 65;

/// The greatest number that a source may hold.
pub const MOST_NUMBER: u32 = 2_147_483_647;

/// The most classes of a program.
pub const MOST_CLASSES: u32 = 256;

/// The most parameters of a method.
pub const MOST_PARAMETERS: u32 = 16;

/// The most locals at one point, those of `construct` and of element calls counted.
pub const MOST_LOCALS: u32 = 32;

/// The most statements one in another, a method's own ones counted 1.
pub const MOST_NESTING: u32 = 100;

/// The most parentheses one in another in an expression.
pub const MOST_PARENS: u32 = 100;

/// The most fields of a class, inherited ones included.
pub const MOST_FIELDS: u32 = 64;

/// The most method slots of a class, inherited ones included.
pub const MOST_METHODS: u32 = 256;

/// What has a limit.
#[derive(Clone, Copy, Debug, PartialEq, Eq)]
pub enum LimitKind {
    /// The tokens of the text.
    Tokens,
    /// The classes.
    Classes,
    /// The parameters of a method.
    Parameters,
    /// The statements one in another.
    Nesting,
    /// The locals at one point.
    Locals,
    /// The expression nodes of a statement.
    Nodes,
    /// The parentheses one in another.
    Parens,
    /// The fields of a class, inherited ones included.
    Fields,
    /// The method slots of a class, inherited ones included.
    Methods,
}
