// Reads scripts.
ghost use Rattle.std.specs.Prelude.{◌≡◌, ◌≤◌, pos, [], map, length, Some};
ghost use Rattle.debugger_scripts.specs.Scripts.{command_of as command_of_words, counted_command, placed_command, regs_command, cells_command, with_line, commands_from, script_of, Gives};
ghost use Rattle.pisa_scripts.specs.Lines.{pieces as pieces_of};

use crate::error::ScriptError;
use pisa_scripts::{
    Command, MOST_SCRIPT, is_blank, number_up_to, pieces, short_number, without_returns,
};
use std::alloc::Global;

/// The most cells that one command prints.
pub const MOST_SHOWN: u64 = 1000;

/// The commands of a script. A line of it is blank, or `step N`, `back N`, `to P N`, `backto P N`,
/// `regs` or `cells A N`, with one space between words; a carriage return before a line feed is
/// dropped. The first line that is neither is refused.
pub fn read_script(alloc: Global, bytes: &[u8]) -> Result<Vec<Command>, ScriptError>
    requires { length bytes.now ≤ MOST_SCRIPT }
    ensures { Gives (λ commands. commands.items) result (script_of bytes.now) }
{
    let text = without_returns(alloc, bytes)?;
    read_lines(alloc, &text)
}

// The commands of the lines, which line feeds part.
fn read_lines(alloc: Global, text: &[u8]) -> Result<Vec<Command>, ScriptError>
    requires { length text.now ≤ MOST_SCRIPT }
    ensures { Gives (λ commands. commands.items) result (commands_from 1 [] (pieces_of 10 text.now)) }
{
    let lines = pieces(alloc, b'\n', text)?;
    let mut commands = Vec::new(alloc);
    let mut number = 1;
    for line in &lines {
        add_line(alloc, &mut commands, number, line)?;
        number += 1;
    }
    Ok(commands)
}

// Puts the command of a line at the end, unless the line is blank.
fn add_line(
    alloc: Global,
    commands: &mut Vec<Command>,
    number: u32,
    line: &[u8],
) -> Result<(), ScriptError>
    ensures { Gives (λ _. commands.new.items) result (with_line number commands.old.items line.now) }
{
    if is_blank(line) {
        return Ok(());
    }
    let words = pieces(alloc, b' ', line)?;
    let Some(command) = command_of(&words) else {
        return Err(ScriptError::BadCommand { line: number });
    };
    commands.push(command)?;
    Ok(())
}

// The command that words are, if they are one.
#[tactic(auto, unfolding(crate::specs::Scripts::command_of))]
fn command_of(words: &[&[u8]]) -> Option<Command>
    ensures { result ≡ command_of_words (map (λ word. word.now) words.now) }
{
    let (name, args) = words.split_first()?;
    match *name {
        b"step" => step_of(args),
        b"back" => back_of(args),
        b"to" => to_of(args),
        b"backto" => back_to_of(args),
        b"regs" => regs_of(args),
        b"cells" => cells_of(args),
        _ => None,
    }
}

fn step_of(args: &[&[u8]]) -> Option<Command>
    ensures { result ≡ counted_command Command.Step (map (λ word. word.now) args.now) }
{
    match args {
        [count] => Some(Command::Step(short_number(count)?)),
        _ => None,
    }
}

fn back_of(args: &[&[u8]]) -> Option<Command>
    ensures { result ≡ counted_command Command.Back (map (λ word. word.now) args.now) }
{
    match args {
        [count] => Some(Command::Back(short_number(count)?)),
        _ => None,
    }
}

fn to_of(args: &[&[u8]]) -> Option<Command>
    ensures { result ≡ placed_command (λ place count. Some (Command.To (pos place) count))
        (map (λ word. word.now) args.now) }
{
    match args {
        [place, count] => Some(Command::To(short_number(place)? as i64, short_number(count)?)),
        _ => None,
    }
}

fn back_to_of(args: &[&[u8]]) -> Option<Command>
    ensures { result ≡ placed_command (λ place count. Some (Command.BackTo (pos place) count))
        (map (λ word. word.now) args.now) }
{
    match args {
        [place, count] => {
            let place = short_number(place)?;
            let count = short_number(count)?;
            Some(Command::BackTo(place as i64, count))
        }
        _ => None,
    }
}

fn regs_of(args: &[&[u8]]) -> Option<Command>
    ensures { result ≡ regs_command (map (λ word. word.now) args.now) }
{
    match args {
        [] => Some(Command::Regs),
        _ => None,
    }
}

fn cells_of(args: &[&[u8]]) -> Option<Command>
    ensures { result ≡ cells_command (map (λ word. word.now) args.now) }
{
    match args {
        [from, count] => {
            let from = number_up_to(u64::from(u32::MAX), from)?;
            let count = number_up_to(MOST_SHOWN, count)?;
            if count == 0 {
                return None;
            }
            Some(Command::Cells(from as u32, count as u32))
        }
        _ => None,
    }
}
