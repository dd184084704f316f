// The keywords.
ghost use Rattle.std.specs.Prelude.{◌≡◌, MatchOption, false};
ghost use Rattle.rpp_tree.specs.Names.{is_keyword};
ghost use Rattle.roopl_lexer.specs.Signs.{keyword_bytes};

use crate::token::Keyword;

const KEYWORDS: [Keyword; 24] = [
    Keyword::Class,
    Keyword::Inherits,
    Keyword::Method,
    Keyword::Int,
    Keyword::Nil,
    Keyword::Skip,
    Keyword::If,
    Keyword::Then,
    Keyword::Else,
    Keyword::Fi,
    Keyword::From,
    Keyword::Do,
    Keyword::Loop,
    Keyword::Until,
    Keyword::Local,
    Keyword::Delocal,
    Keyword::Construct,
    Keyword::Destruct,
    Keyword::New,
    Keyword::Delete,
    Keyword::Copy,
    Keyword::Uncopy,
    Keyword::Call,
    Keyword::Uncall,
];

/// The bytes of a keyword.
fn bytes_of(keyword: Keyword) -> &'static [u8]
    ensures { result.now ≡ keyword_bytes keyword }
{
    match keyword {
        Keyword::Class => b"class",
        Keyword::Inherits => b"inherits",
        Keyword::Method => b"method",
        Keyword::Int => b"int",
        Keyword::Nil => b"nil",
        Keyword::Skip => b"skip",
        Keyword::If => b"if",
        Keyword::Then => b"then",
        Keyword::Else => b"else",
        Keyword::Fi => b"fi",
        Keyword::From => b"from",
        Keyword::Do => b"do",
        Keyword::Loop => b"loop",
        Keyword::Until => b"until",
        Keyword::Local => b"local",
        Keyword::Delocal => b"delocal",
        Keyword::Construct => b"construct",
        Keyword::Destruct => b"destruct",
        Keyword::New => b"new",
        Keyword::Delete => b"delete",
        Keyword::Copy => b"copy",
        Keyword::Uncopy => b"uncopy",
        Keyword::Call => b"call",
        Keyword::Uncall => b"uncall",
    }
}

/// The keyword that a word is, if it is one.
pub fn keyword_of(word: &[u8]) -> Option<Keyword>
    ensures { MatchOption result (is_keyword word.now ≡ false)
        (λ keyword. word.now ≡ keyword_bytes keyword) }
{
    for keyword in &KEYWORDS {
        if word == bytes_of(*keyword) {
            return Some(*keyword);
        }
    }
    None
}
