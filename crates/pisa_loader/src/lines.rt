// What a line of an input says.
ghost use Rattle.std.specs.Prelude.{◌≡◌, ◌≤◌, ◌^◌, ◌+◌, min, length, MatchOption, Some, None};
ghost use Rattle.std.specs.List.{prefix_len, take_while, list_all};
ghost use Rattle.pisa_loader.specs.InputLines.{is_blank, behind, after, word_up_to, digits_word, number_word, entry_in, Entry, entry};
ghost use Rattle.pisa_loader.specs.Kinds.{is_of};
ghost use Rattle.pisa_machine.specs.rpp_words.Texts.{decimal_from};

use pisa_machine::wrap_sub;

/// What a byte of a line may be.
#[derive(Clone, Copy, Debug, PartialEq, Eq)]
pub(crate) enum Kind {
    /// A space or a tab.
    Blank,
    /// A letter, which a name begins with.
    Letter,
    /// What a name goes on with: a letter, a digit, `_` or `'`.
    InName,
    /// A digit.
    Digit,
}

/// Whether a byte is of a kind.
fn is_of(kind: Kind, byte: u8) -> bool
    ensures { result ≡ is_of kind byte }
{
    match kind {
        Kind::Blank => byte == b' ' || byte == b'\t',
        Kind::Letter => byte.is_ascii_alphabetic(),
        Kind::InName => {
            byte.is_ascii_alphabetic() || byte.is_ascii_digit() || byte == b'_' || byte == b'\''
        }
        Kind::Digit => byte.is_ascii_digit(),
    }
}

/// How many bytes of a kind are at the beginning.
fn front_len(kind: Kind, text: &[u8]) -> usize
    ensures count { result ≡ prefix_len (is_of kind) text.now }
    ensures within { result ≤ length text.now }
{
    for (i, byte) in text.iter().enumerate() {
        if !is_of(kind, *byte) {
            return i;
        }
    }
    text.len()
}

/// What follows the first bytes of a kind.
fn behind(kind: Kind, text: &[u8]) -> &[u8]
    ensures { result.now ≡ behind (is_of kind) text.now }
{
    &text[front_len(kind, text)..]
}

/// Whether there are only blanks.
pub(crate) fn is_blank_line(text: &[u8]) -> bool
    ensures { result ≡ list_all is_blank text.now }
{
    text.iter().all(|byte| is_of(Kind::Blank, *byte))
}

/// What follows a byte that must come first.
fn after(first: u8, text: &[u8]) -> Option<&[u8]>
    ensures { MatchOption result (after first text.now ≡ None)
        (λ rest. after first text.now ≡ Some rest.now) }
{
    match text {
        [byte, rest @ ..] if *byte == first => Some(rest),
        _ => None,
    }
}

/// The number that these digits write, or `2 ^ 32` if it is greater.
fn decimal(digits: &[u8]) -> u64
    ensures { result ≡ min (decimal_from 0 digits.now) (2 ^ 32) }
{
    let mut number: u64 = 0;
    for digit in digits {
        number = (10 * number + u64::from(digit.saturating_sub(b'0'))).min(1 << 32);
    }
    number
}

/// The word of a number with or without a minus, if 32 bits can hold it.
fn word_up_to(minus: bool, number: u64) -> Option<u32>
    requires { number ≤ 2 ^ 32 }
    ensures { result ≡ word_up_to minus number }
{
    if minus && number <= 1 << 31 {
        Some(wrap_sub(0, number as u32))
    } else if !minus && number < 1 << 31 {
        Some(number as u32)
    } else {
        None
    }
}

/// The word that digits up to the end of the line write, which blanks may follow.
#[tactic(auto, unfolding(crate::specs::InputLines::digits_word))]
fn digits_word(minus: bool, text: &[u8]) -> Option<u32>
    ensures { result ≡ digits_word minus text.now }
{
    let len = front_len(Kind::Digit, text);
    if len == 0 || !is_blank_line(&text[len..]) {
        return None;
    }
    word_up_to(minus, decimal(&text[..len]))
}

/// The word that a number up to the end of the line writes, which blanks may follow.
fn number_word(text: &[u8]) -> Option<u32>
    ensures { result ≡ number_word text.now }
{
    match text {
        [] => None,
        [b'-', digits @ ..] => digits_word(true, digits),
        [_, ..] => digits_word(false, text),
    }
}

/// The name and the word of a line that sets a field.
#[tactic(auto, unfolding(crate::specs::InputLines::entry_in))]
pub(crate) fn entry_in(line: &[u8]) -> Option<(&[u8], u32)>
    ensures { MatchOption result (entry_in line.now ≡ None)
        (λ e. entry_in line.now ≡ Some (entry e.0.now e.1)) }
{
    let text = behind(Kind::Blank, line);
    if front_len(Kind::Letter, text) == 0 {
        return None;
    }
    let (name, rest) = text.split_at(front_len(Kind::InName, text));
    let value = after(b'=', behind(Kind::Blank, rest))?;
    let word = number_word(behind(Kind::Blank, value))?;
    Some((name, word))
}
