// What `until change` watches.
ghost use Rattle.std.specs.Prelude.{◌≡◌, slice_get, map};
ghost use Rattle.image_searches.specs.Goals.{register_of as register_number, register_watch, image_watch_of as watch_for, watched_word as word_in, is_other as is_other_word};
ghost use Rattle.live_requests.specs.Asks.{first_argument};

use live_requests::{Goal, Machine, number_up_to};

/// What is watched.
#[derive(Clone, Copy, PartialEq, Eq, Debug)]
pub(crate) enum Watch {
    /// Nothing.
    Nothing,
    /// A register.
    Register(u32),
    /// A memory cell.
    Cell(u64),
}

// R of `$R`.
fn register_of(word: &[u8]) -> Option<u32>
    ensures { result ≡ register_number word.now }
{
    let (mark, digits) = word.split_first()?;
    if *mark != b'$' {
        return None;
    }
    let number = number_up_to(31, digits)?;
    Some(number as u32)
}

fn first_word<'a>(words: &'a [&'a [u8]]) -> &'a [u8]
    ensures { result.now ≡ first_argument (map (λ word. word.now) words.now) }
{
    match words {
        [] => &[],
        [word, ..] => word,
    }
}

/// The register `$R` that is the first of the arguments.
pub(crate) fn first_register(arguments: &[&[u8]]) -> Option<u32>
    ensures { result ≡ register_number (first_argument (map (λ word. word.now) arguments.now)) }
{
    register_of(first_word(arguments))
}

fn watch_register(register: Option<u32>) -> Watch
    ensures { result ≡ register_watch register }
{
    match register {
        None => Watch::Nothing,
        Some(register) => Watch::Register(register),
    }
}

/// What is watched.
pub(crate) fn watch_of(goal: Goal, arguments: &[&[u8]]) -> Watch
    ensures { result ≡ watch_for goal (map (λ word. word.now) arguments.now) }
{
    match goal {
        Goal::Points => Watch::Nothing,
        Goal::Any => Watch::Nothing,
        Goal::Depth(_most) => Watch::Nothing,
        Goal::Change => watch_register(first_register(arguments)),
        Goal::Cell(at) => Watch::Cell(at),
    }
}

fn register_word(registers: &[u32], register: u32) -> Option<u32>
    ensures { result ≡ slice_get registers.now register }
{
    registers.get(register as usize).copied()
}

fn cell_word(machine: &Machine, at: u64) -> Option<u32>
    ensures { result ≡ slice_get machine.now.state.cells at }
{
    if at >= u64::from(machine.cells()) {
        return None;
    }
    machine.cell(at as u32)
}

/// The word of what is watched, if it exists.
pub(crate) fn word_at(machine: &Machine, watch: Watch) -> Option<u32>
    ensures { result ≡ word_in watch machine.now }
{
    match watch {
        Watch::Nothing => None,
        Watch::Register(register) => register_word(&machine.core().regs, register),
        Watch::Cell(at) => cell_word(machine, at),
    }
}

/// Whether two words differ.
pub(crate) fn is_other(here: Option<u32>, from: Option<u32>) -> bool
    ensures { result ≡ is_other_word here from }
{
    match (here, from) {
        (None, None) => false,
        (None, Some(_from)) => true,
        (Some(_here), None) => true,
        (Some(here), Some(from)) => here != from,
    }
}
