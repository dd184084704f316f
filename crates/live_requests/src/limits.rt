// The limit on the moves of a request.
ghost use Rattle.std.specs.Prelude.{◌≡◌};
ghost use Rattle.live_requests.specs.Limited.{allowed as allowed_moves, is_over_limit as is_over_limit, limited as limited_command, is_cut as is_cut_command, limited_ask as limited_moves, is_cut_ask as is_cut_moves, limit_of as limit_of_request};
ghost use Rattle.two_way_debugger.specs.Shown.{most_moves as most_of_command};

use crate::asks::Ask;
use crate::request::Request;
use debugger_scripts::Command;

// How many of so many moves a limit allows.
fn allowed(limit: Option<u64>, moves: u64) -> u64
    ensures { result ≡ allowed_moves limit moves }
{
    match limit {
        None => moves,
        Some(most) => { if most < moves { most } else { moves } }
    }
}

// Whether these are more moves than a limit allows.
fn is_over(limit: Option<u64>, moves: u64) -> bool
    ensures { result ≡ is_over_limit limit moves }
{
    match limit {
        None => false,
        Some(most) => most < moves,
    }
}

/// How many moves a command makes at most.
pub fn most_of(command: Command) -> u64
    ensures { result ≡ most_of_command command }
{
    match command {
        Command::Step(most) => most,
        Command::Back(most) => most,
        Command::To(_, most) => most,
        Command::BackTo(_, most) => most,
        Command::Regs => 0,
        Command::Cells(_, _) => 0,
    }
}

/// The command with no more moves than a limit allows.
pub fn limited(limit: Option<u64>, command: Command) -> Command
    ensures { result ≡ limited_command limit command }
{
    match command {
        Command::Step(most) => Command::Step(allowed(limit, most)),
        Command::Back(most) => Command::Back(allowed(limit, most)),
        Command::To(place, most) => Command::To(place, allowed(limit, most)),
        Command::BackTo(place, most) => Command::BackTo(place, allowed(limit, most)),
        Command::Regs => Command::Regs,
        Command::Cells(from, count) => Command::Cells(from, count),
    }
}

/// Whether a command asks for more moves than a limit allows.
pub fn is_cut(limit: Option<u64>, command: Command) -> bool
    ensures { result ≡ is_cut_command limit command }
{
    is_over(limit, most_of(command))
}

/// Moves that are asked for, with no more than a limit allows.
pub fn limited_ask(limit: Option<u64>, ask: Ask) -> Ask
    ensures { result ≡ limited_moves limit ask }
{
    Ask {
        back: ask.back,
        goal: ask.goal,
        most: allowed(limit, ask.most),
    }
}

/// Whether more moves are asked for than a limit allows.
pub fn is_cut_ask(limit: Option<u64>, ask: Ask) -> bool
    ensures { result ≡ is_cut_moves limit ask }
{
    is_over(limit, ask.most)
}

/// The limit that a request sets, if it sets one.
pub fn limit_of(request: Request) -> Option<u64>
    ensures { result ≡ limit_of_request request }
{
    match request {
        Request::Limit(most) => Some(most),
        _ => None,
    }
}
