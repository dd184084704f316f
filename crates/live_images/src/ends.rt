// How the replies to commands and moves end.
ghost use Rattle.std.specs.Prelude.{◌≡◌, ◌+◌, ◌-◌};
ghost use Rattle.live_images.specs.Ends.{image_end_in as end_in_text, image_end_shown as shown_end, image_all_made as all_moves_made, image_end_carried as carried_end, image_end_of_all, image_end_moved as moved_end};
ghost use Rattle.live_talks.specs.Ends.{has_letter};

use image_searches::Outcome;
use live_talks::{Command, End, Goal, end_cut, is_cut, limited, most_of};

fn has(letter: u8, text: &str) -> bool
    ensures { result ≡ has_letter letter text.now }
{
    text.as_bytes().contains(&letter)
}

// How moves ended, by the line on them.
fn end_in(text: &str) -> End
    ensures { result ≡ end_in_text text.now }
{
    if has(b'u', text) {
        return End::Fault;
    }
    if has(b'h', text) {
        return End::Over;
    }
    if has(b'e', text) {
        return End::Fault;
    }
    if has(b's', text) {
        return End::Start;
    }
    End::Done
}

// How the reply to a command ends that printed this.
fn end_shown(command: Command, text: &str) -> End
    ensures { result ≡ shown_end command text.now }
{
    match command {
        Command::Step(_) => end_in(text),
        Command::Back(_) => end_in(text),
        Command::To(_, _) => end_in(text),
        Command::BackTo(_, _) => end_in(text),
        Command::Regs => End::Done,
        Command::Cells(_, _) => End::Done,
    }
}

// How many moves lie between two positions.
fn distance(from: u64, to: u64) -> u64
    ensures { result ≡ to - from + (from - to) }
{
    if from <= to { to - from } else { from - to }
}

// Whether so many moves led from a position to another.
fn all_made(moves: u64, from: u64, to: u64) -> bool
    ensures { result ≡ all_moves_made moves from to }
{
    !(distance(from, to) < moves)
}

/// How the reply to a command ends that led from a position to another with a limit on its moves,
/// and printed this.
pub(crate) fn end_carried(
    limit: Option<u64>,
    command: Command,
    from: u64,
    to: u64,
    text: &str,
) -> End
    ensures { result ≡ carried_end limit command from to text.now }
{
    let moves = most_of(limited(limit, command));
    let end = end_shown(command, text);
    end_cut(is_cut(limit, command), all_made(moves, from, to), end)
}

// How moves end that were all made, by what they look for.
fn end_all(goal: Goal) -> End
    ensures { result ≡ image_end_of_all goal }
{
    match goal {
        Goal::Points => End::Done,
        Goal::Any => End::More,
        Goal::Depth(_most) => End::More,
        Goal::Change => End::More,
        Goal::Cell(_at) => End::More,
    }
}

/// How the reply to moves ends that printed this. `cut` says that a limit allowed fewer than were
/// asked for.
pub(crate) fn end_moved(cut: bool, goal: Goal, how: Outcome, text: &str) -> End
    ensures { result ≡ moved_end cut goal how text.now }
{
    match how {
        Outcome::Met => End::Met,
        Outcome::Made => end_cut(cut, true, end_all(goal)),
        Outcome::Stopped => end_in(text),
    }
}
