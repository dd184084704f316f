// The words of tests.
ghost use Rattle.std.specs.Prelude.{◌≡◌};
ghost use Rattle.source_compared.specs.TestWords.{choice_word as choice_word_of, loop_word as loop_word_of, local_word as local_word_of};

/// The word of a choice's test, by its offset and that of the other test.
pub fn choice_word(test: u32, other: u32) -> &'static str
    ensures { result.now ≡ choice_word_of test other }
{
    if test < other { "if" } else { "fi" }
}

/// The same of a loop.
pub fn loop_word(test: u32, other: u32) -> &'static str
    ensures { result.now ≡ loop_word_of test other }
{
    if test < other { "from" } else { "until" }
}

/// The same of a variable's value at its end.
pub fn local_word(name: &[u8], value: u32, other: u32) -> &'static str
    ensures { result.now ≡ local_word_of name.now value other }
{
    if value < other {
        return "local";
    }
    if other < value {
        return "delocal";
    }
    if name.is_empty() { "call" } else { "destruct" }
}
