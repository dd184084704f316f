// Lines and words.
ghost use Rattle.std.specs.Prelude.{◌≡◌, ◌<◌, ◌≤◌, ◌∷◌, [], length, drop, nat_eq, MatchOption};
ghost use Rattle.std.specs.List.{prefix_len, position_or_len};
ghost use Rattle.pisa_asm.specs.Lines.{lines_of, content_of, without_return, line_words, is_blank_byte, ends_in, all_but_last};

/// How many bytes come before the first line feed, or in all.
#[tactic(auto, using(std::proofs::lemmas::List::Sums::prefix_len_is))]
fn line_len(text: &[u8]) -> usize
    ensures length { result ≡ position_or_len (λ b. nat_eq b 10) text.now }
    ensures within { result ≤ length text.now }
{
    for (i, byte) in text.iter().enumerate() {
        if *byte == b'\n' {
            return i;
        }
    }
    text.len()
}

/// What comes after so many bytes.
fn behind(bytes: &[u8], len: usize) -> &[u8]
    requires { len ≤ length bytes.now }
    ensures { result.now ≡ drop len bytes.now }
{
    let (_front, behind) = bytes.split_at(len);
    behind
}

/// All bytes but the first.
fn all_but_first(bytes: &[u8]) -> &[u8]
    ensures { result.now ≡ drop 1 bytes.now }
{
    match bytes {
        [] => bytes,
        [_first, rest @ ..] => rest,
    }
}

/// The first line of a text, and the text after it.
pub fn first_line(text: &[u8]) -> (&[u8], &[u8])
    requires { 0 < length text.now }
    ensures lines { lines_of text.now ≡ result.0.now ∷ lines_of result.1.now }
    ensures shorter { length result.1.now < length text.now }
{
    let (line, rest) = text.split_at(line_len(text));
    (line, all_but_first(rest))
}

/// Whether the last byte is this one.
pub fn ends_in(byte: u8, bytes: &[u8]) -> bool
    requires { 0 < byte }
    ensures { result ≡ ends_in byte bytes.now }
{
    if bytes.is_empty() {
        false
    } else {
        bytes[bytes.len() - 1] == byte
    }
}

/// All bytes but the last.
pub fn all_but_last(bytes: &[u8]) -> &[u8]
    ensures { result.now ≡ all_but_last bytes.now }
{
    &bytes[..bytes.len().saturating_sub(1)]
}

/// A line without the carriage return at its end.
fn without_return(line: &[u8]) -> &[u8]
    ensures { result.now ≡ without_return line.now }
{
    if ends_in(b'\r', line) {
        all_but_last(line)
    } else {
        line
    }
}

/// How many bytes come before a comment, or in all.
#[tactic(auto, using(std::proofs::lemmas::List::Sums::prefix_len_is))]
fn content_len(line: &[u8]) -> usize
    ensures length { result ≡ position_or_len (λ b. nat_eq b 59) line.now }
    ensures within { result ≤ length line.now }
{
    for (i, byte) in line.iter().enumerate() {
        if *byte == b';' {
            return i;
        }
    }
    line.len()
}

/// A line without its comment and the carriage return at its end.
pub fn content(line: &[u8]) -> &[u8]
    ensures { result.now ≡ content_of line.now }
{
    let line = without_return(line);
    &line[..content_len(line)]
}

/// Whether a byte is a space or a tab.
fn is_blank(byte: u8) -> bool
    ensures { result ≡ is_blank_byte byte }
{
    byte == b' ' || byte == b'\t'
}

/// How many blanks are at the beginning.
#[tactic(auto, using(std::proofs::lemmas::List::Sums::prefix_len_is))]
fn blank_len(line: &[u8]) -> usize
    ensures length { result ≡ prefix_len is_blank_byte line.now }
    ensures within { result ≤ length line.now }
{
    for (i, byte) in line.iter().enumerate() {
        if !is_blank(*byte) {
            return i;
        }
    }
    line.len()
}

/// How many bytes come before the first blank, or in all.
#[tactic(auto, using(std::proofs::lemmas::List::Sums::prefix_len_is))]
fn word_len(line: &[u8]) -> usize
    ensures length { result ≡ position_or_len is_blank_byte line.now }
    ensures within { result ≤ length line.now }
{
    for (i, byte) in line.iter().enumerate() {
        if is_blank(*byte) {
            return i;
        }
    }
    line.len()
}

/// The first word, and what follows it; none if only blanks are left.
pub fn next_word(line: &[u8]) -> Option<(&[u8], &[u8])>
    ensures { MatchOption result (line_words line.now ≡ [])
        (λ p. (line_words line.now ≡ p.0.now ∷ line_words p.1.now)
        × (length p.1.now < length line.now)) }
{
    let line = behind(line, blank_len(line));
    if line.is_empty() {
        return None;
    }
    Some(line.split_at(word_len(line)))
}
