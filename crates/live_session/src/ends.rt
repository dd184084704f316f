// How the replies to commands and moves end.
ghost use Rattle.std.specs.Prelude.{◌≡◌, ◌+◌, ◌-◌};
ghost use Rattle.live_session.specs.Ends.{is_short as is_short_of, end_in as end_in_text, end_shown as shown_end, all_moves_made as are_all_made, end_carried as carried_end, end_of_all, end_moved as moved_end, is_made as is_made_outcome, end_asked as asked_end};
ghost use Rattle.live_talks.specs.Ends.{has_letter};

use live_searches::Outcome;
use live_talks::{Ask, Command, End, Goal, end_cut, is_cut, is_cut_ask, limited, most_of};

// How many moves lie between two positions.
fn distance(from: u64, to: u64) -> u64
    ensures { result ≡ to - from + (from - to) }
{
    if from <= to { to - from } else { from - to }
}

// Whether fewer moves were made than were allowed.
fn is_short(most: u64, from: u64, to: u64) -> bool
    ensures { result ≡ is_short_of most from to }
{
    distance(from, to) < most
}

// How moves ended, by the line on them. Its other words have none of these letters.
fn end_in(short: bool, text: &str) -> End
    ensures { result ≡ end_in_text short text.now }
{
    if has(b'f', text) {
        return End::Fault;
    }
    if has(b's', text) {
        return End::Start;
    }
    if has(b'n', text) && short {
        return End::Over;
    }
    End::Done
}

fn has(letter: u8, text: &str) -> bool
    ensures { result ≡ has_letter letter text.now }
{
    text.as_bytes().contains(&letter)
}

// How the reply to a command ends that led from a position to another, and printed this.
fn end_shown(command: Command, from: u64, to: u64, text: &str) -> End
    ensures { result ≡ shown_end command from to text.now }
{
    match command {
        Command::Step(most) => end_in(is_short(most, from, to), text),
        Command::Back(most) => end_in(is_short(most, from, to), text),
        Command::To(_, most) => end_in(is_short(most, from, to), text),
        Command::BackTo(_, most) => end_in(is_short(most, from, to), text),
        Command::Regs => End::Done,
        Command::Cells(_, _) => End::Done,
    }
}

// Whether all moves were made that a command asks for.
fn all_made(command: Command, from: u64, to: u64) -> bool
    ensures { result ≡ are_all_made command from to }
{
    !is_short(most_of(command), from, to)
}

/// How the reply to a command ends, of which a limit allows so much.
pub(crate) fn end_carried(
    limit: Option<u64>,
    command: Command,
    from: u64,
    to: u64,
    text: &str,
) -> End
    ensures { result ≡ carried_end limit command from to text.now }
{
    let allowed = limited(limit, command);
    let end = end_shown(allowed, from, to, text);
    end_cut(is_cut(limit, command), all_made(allowed, from, to), end)
}

// How moves end that were all made, by what they look for.
fn end_all(goal: Goal) -> End
    ensures { result ≡ end_of_all goal }
{
    match goal {
        Goal::Points => End::Done,
        Goal::Any => End::More,
        Goal::Depth(_most) => End::More,
        Goal::Change => End::More,
        Goal::Cell(_address) => End::More,
    }
}

// How the reply to moves ends that printed this.
fn end_moved(goal: Goal, how: Outcome, text: &str) -> End
    ensures { result ≡ moved_end goal how text.now }
{
    match how {
        Outcome::Met => End::Met,
        Outcome::Made => end_all(goal),
        Outcome::Stopped => end_in(true, text),
    }
}

fn is_made(how: Outcome) -> bool
    ensures { result ≡ is_made_outcome how }
{
    match how {
        Outcome::Met => false,
        Outcome::Made => true,
        Outcome::Stopped => false,
    }
}

/// How the reply to moves ends that printed this, where a limit allows so many of them.
pub(crate) fn end_asked(limit: Option<u64>, ask: Ask, how: Outcome, text: &str) -> End
    ensures { result ≡ asked_end limit ask how text.now }
{
    let end = end_moved(ask.goal, how, text);
    end_cut(is_cut_ask(limit, ask), is_made(how), end)
}
