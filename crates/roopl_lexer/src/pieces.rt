// How long the parts at the beginning of a text are.
ghost use Rattle.std.specs.Prelude.{◌≡◌, ◌<◌, ◌≤◌, length, true, false};
ghost use Rattle.std.specs.List.{prefix_len};
ghost use Rattle.std.specs.Char.{is_ascii_digit};
ghost use Rattle.rpp_tree.specs.rpp_words.Names.{is_name_byte};
ghost use Rattle.roopl_lexer.specs.Tokens.{is_white, begins_comment, comment_length};

use rpp_tree::is_name_byte;

/// Whether a byte is white space.
pub fn is_white(byte: u8) -> bool
    ensures { result ≡ is_white byte }
{
    byte == b' ' || byte == b'\t' || byte == b'\n' || byte == b'\r'
}

/// Whether a comment begins here.
pub fn begins_comment(rest: &[u8]) -> bool
    ensures { result ≡ begins_comment rest.now }
{
    match rest {
        [a, b, ..] => *a == b'/' && *b == b'/',
        _ => false,
    }
}

/// How many bytes a comment has.
#[tactic(auto, using(std::proofs::lemmas::List::Sums::prefix_len_is))]
pub fn comment_len(rest: &[u8]) -> usize
    ensures length { result ≡ comment_length rest.now }
    ensures within { result ≤ length rest.now }
{
    for (i, byte) in rest.iter().enumerate() {
        if *byte == b'\n' {
            return i;
        }
    }
    rest.len()
}

/// How many bytes at the beginning belong to a name.
#[tactic(auto, using(std::proofs::lemmas::List::Sums::prefix_len_is))]
pub fn name_len(rest: &[u8]) -> usize
    ensures length { result ≡ prefix_len is_name_byte rest.now }
    ensures within { result ≤ length rest.now }
{
    for (i, byte) in rest.iter().enumerate() {
        if !is_name_byte(*byte) {
            return i;
        }
    }
    rest.len()
}

/// How many digits come first.
#[tactic(auto, using(std::proofs::lemmas::List::Sums::prefix_len_is))]
pub fn digits_len(rest: &[u8]) -> usize
    ensures length { result ≡ prefix_len is_ascii_digit rest.now }
    ensures within { result ≤ length rest.now }
{
    for (i, byte) in rest.iter().enumerate() {
        if !byte.is_ascii_digit() {
            return i;
        }
    }
    rest.len()
}
