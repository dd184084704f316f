// The words that ask for moves.
ghost use Rattle.std.specs.Prelude.{◌≡◌, map};
ghost use Rattle.debugger_scripts.specs.pisa_scripts.Lines.{short_number as short_number_of};
ghost use Rattle.live_requests.specs.Asks.{ask_of, ask_by, points_ask, any_ask, depth_ask, until_ask, change_ask, cell_ask, cell_by, change_of, are_numbers as are_number_words, arguments as argument_words, behind_two as behind_two_words, behind_three as behind_three_words};

use debugger_scripts::{number_up_to, short_number};

/// The most positions that are listed.
pub const MOST_POINTS: u64 = 1_000_000;

/// What moves look for.
#[derive(Clone, Copy, PartialEq, Eq, Debug)]
pub enum Goal {
    /// `points`: nothing. Each position is listed.
    Points,
    /// `any`: a statement at one of some offsets.
    Any,
    /// `depth`: at most so many active calls.
    Depth(u64),
    /// `until change NAME`: a change of a variable, or of a register.
    Change,
    /// `until change cell A`: a change of the memory cell of this address.
    Cell(u64),
}

/// Moves that are asked for: their direction, what they look for, and how many are made at most.
#[derive(Clone, Copy, PartialEq, Eq, Debug)]
pub struct Ask {
    pub back: bool,
    pub goal: Goal,
    pub most: u64,
}

/// The moves that words ask for, if they ask for some. `back` before them turns them round.
#[tactic(auto, unfolding(crate::specs::Asks::ask_of))]
pub fn read_ask(words: &[&[u8]]) -> Option<Ask>
    ensures { result ≡ ask_of (map (λ word. word.now) words.now) }
{
    let (name, args) = words.split_first()?;
    match *name {
        b"back" => read_by(true, args),
        _ => read_by(false, words),
    }
}

#[tactic(auto, unfolding(crate::specs::Asks::ask_by))]
fn read_by(back: bool, words: &[&[u8]]) -> Option<Ask>
    ensures { result ≡ ask_by back (map (λ word. word.now) words.now) }
{
    let (name, args) = words.split_first()?;
    match *name {
        b"points" => read_points(back, args),
        b"any" => read_any(back, args),
        b"depth" => read_depth(back, args),
        b"until" => read_until(back, args),
        _ => None,
    }
}

fn read_points(back: bool, args: &[&[u8]]) -> Option<Ask>
    ensures { result ≡ points_ask back (map (λ word. word.now) args.now) }
{
    match args {
        [count] => {
            let most = number_up_to(MOST_POINTS, count)?;
            Some(Ask {
                back,
                goal: Goal::Points,
                most,
            })
        }
        _ => None,
    }
}

fn read_any(back: bool, args: &[&[u8]]) -> Option<Ask>
    ensures { result ≡ any_ask back (map (λ word. word.now) args.now) }
{
    match args {
        [count, places @ ..] => {
            if !are_numbers(places) {
                return None;
            }
            let most = short_number(count)?;
            Some(Ask {
                back,
                goal: Goal::Any,
                most,
            })
        }
        _ => None,
    }
}

// Whether all words are numbers.
fn are_numbers(words: &[&[u8]]) -> bool
    ensures { result ≡ are_number_words (map (λ word. word.now) words.now) }
{
    match words {
        [] => true,
        [word, rest @ ..] => match short_number(word) {
            None => false,
            Some(_number) => are_numbers(rest),
        },
    }
}

fn read_depth(back: bool, args: &[&[u8]]) -> Option<Ask>
    ensures { result ≡ depth_ask back (map (λ word. word.now) args.now) }
{
    match args {
        [depth, count] => {
            let depth = short_number(depth)?;
            let most = short_number(count)?;
            Some(Ask {
                back,
                goal: Goal::Depth(depth),
                most,
            })
        }
        _ => None,
    }
}

#[tactic(auto, unfolding(crate::specs::Asks::until_ask))]
fn read_until(back: bool, args: &[&[u8]]) -> Option<Ask>
    ensures { result ≡ until_ask back (map (λ word. word.now) args.now) }
{
    let (change, args) = args.split_first()?;
    match *change {
        b"change" => read_change_of(back, args),
        _ => None,
    }
}

fn read_change_of(back: bool, args: &[&[u8]]) -> Option<Ask>
    ensures { result ≡ change_of back (map (λ word. word.now) args.now) }
{
    match args {
        [_name, count] => read_change(back, count),
        [cell, address, count] => read_cell(back, cell, address, count),
        _ => None,
    }
}

fn read_change(back: bool, count: &[u8]) -> Option<Ask>
    ensures { result ≡ change_ask back count.now }
{
    let most = short_number(count)?;
    Some(Ask {
        back,
        goal: Goal::Change,
        most,
    })
}

fn read_cell(back: bool, cell: &[u8], address: &[u8], count: &[u8]) -> Option<Ask>
    ensures { result ≡ cell_ask back cell.now address.now count.now }
{
    match cell {
        b"cell" => read_address(back, address, count),
        _ => None,
    }
}

fn read_address(back: bool, address: &[u8], count: &[u8]) -> Option<Ask>
    ensures { result ≡ cell_by back (short_number_of address.now) (short_number_of count.now) }
{
    let address = short_number(address)?;
    let most = short_number(count)?;
    Some(Ask {
        back,
        goal: Goal::Cell(address),
        most,
    })
}

/// The offsets after `any N`, or the name after `until change` and what follows it.
pub fn arguments<'a>(back: bool, words: &'a [&'a [u8]]) -> &'a [&'a [u8]]
    ensures { map (λ word. word.now) result.now
        ≡ argument_words back (map (λ word. word.now) words.now) }
{
    if back {
        behind_three(words)
    } else {
        behind_two(words)
    }
}

fn behind_two<'a>(words: &'a [&'a [u8]]) -> &'a [&'a [u8]]
    ensures { map (λ word. word.now) result.now
        ≡ behind_two_words (map (λ word. word.now) words.now) }
{
    match words {
        [_, _, rest @ ..] => rest,
        _ => &[],
    }
}

fn behind_three<'a>(words: &'a [&'a [u8]]) -> &'a [&'a [u8]]
    ensures { map (λ word. word.now) result.now
        ≡ behind_three_words (map (λ word. word.now) words.now) }
{
    match words {
        [_, _, _, rest @ ..] => rest,
        _ => &[],
    }
}
