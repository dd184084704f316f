// The tokens of a source text.
use rpp_tree::Text;

/// A token, and its offset in the source.
#[derive(Drop)]
pub struct Token {
    /// What the token is.
    pub kind: TokenKind,
    /// The place of its first byte, in bytes from the start of the source.
    pub at: u32,
    /// How many bytes it has.
    pub len: u32,
}

/// A keyword, a name, a number or a symbol.
#[derive(Drop)]
pub enum TokenKind {
    /// A word of the language.
    Word(Keyword),
    /// A name, with its bytes.
    Name(Text),
    /// A number, at most `MOST_NUMBER`.
    Number(u32),
    /// A symbol of the language.
    Sign(Symbol),
}

/// The words of the language that are no names. `keyword_bytes` of specs/Signs.antt has their bytes.
#[derive(Clone, Copy, Debug, PartialEq, Eq)]
pub enum Keyword {
    Class,
    Inherits,
    Method,
    Int,
    Nil,
    Skip,
    If,
    Then,
    Else,
    Fi,
    From,
    Do,
    Loop,
    Until,
    Local,
    Delocal,
    Construct,
    Destruct,
    New,
    Delete,
    Copy,
    Uncopy,
    Call,
    Uncall,
}

/// The symbols of the language. `sign_bytes` of specs/Signs.antt has their bytes.
#[derive(Clone, Copy, Debug, PartialEq, Eq)]
pub enum Symbol {
    AddTo,
    SubFrom,
    XorInto,
    Swap,
    Plus,
    Minus,
    Caret,
    Amp,
    Bar,
    AmpAmp,
    BarBar,
    Less,
    Greater,
    AtMost,
    AtLeast,
    Equal,
    NotEqual,
    Star,
    Slash,
    Percent,
    LeftParen,
    RightParen,
    LeftBracket,
    RightBracket,
    Comma,
    DoubleColon,
}
