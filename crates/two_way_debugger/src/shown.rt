// What commands print.
ghost use Rattle.std.specs.Prelude.{◌≡◌, ◌+◌, ◌++◌, min, nat_eq, length, IfOk, OnOk, string_bytes};
ghost use Rattle.std.specs.List.{list_all};
ghost use Rattle.two_way_debugger.specs.Shown.{ending_shown, at_shown, registers_shown, cells_shown};

use crate::moves::Ending;
use pisa_machine::Machine;
use pisa_scripts::{add_cell, add_registers, add_stop, direction};
use std::alloc::{AllocError, Global};

/// The line on the code address of a machine after moves that ended so.
pub(crate) fn walk_line(
    alloc: Global,
    machine: &Machine,
    ending: Ending,
) -> Result<String, AllocError>
    ensures { IfOk result (λ text. string_bytes text ≡ at_shown machine.now ending) }
{
    let made = machine.made();
    let core = machine.core();
    let pc = core.pc;
    let br = core.br.cast_signed();
    let dir = direction(core.back);
    let mut text = format!(in alloc; "at {made} pc {pc} br {br} dir {dir}")?;
    add_ending(&mut text, ending)?;
    Ok(text)
}

// How moves ended, with the line's end.
fn add_ending(text: &mut String, ending: Ending) -> Result<(), AllocError>
    ensures { OnOk result (string_bytes text.new ≡ string_bytes text.old ++ ending_shown ending) }
{
    match ending {
        Ending::Made | Ending::Last => text.push_str("\n"),
        Ending::Start => text.push_str(" start\n"),
        Ending::Stopped(stop) => {
            text.push_str(" end ")?;
            add_stop(text, stop)
        }
    }
}

/// The lines of the registers that are not 0.
pub(crate) fn register_text(alloc: Global, regs: &[u32]) -> Result<String, AllocError>
    ensures { IfOk result (λ text. string_bytes text ≡ registers_shown regs.now) }
{
    if all_zero(regs) {
        return String::from_str(alloc, "all zero\n");
    }
    let mut text = String::new(alloc);
    add_registers(&mut text, regs)?;
    Ok(text)
}

fn all_zero(words: &[u32]) -> bool
    ensures { result ≡ list_all (nat_eq 0) words.now }
{
    words.iter().all(|word| 0 == *word)
}

/// The lines of the cells from one on, at most so many.
pub(crate) fn cell_text(
    alloc: Global,
    machine: &Machine,
    from: u32,
    count: u32,
) -> Result<String, AllocError>
    ensures { IfOk result (λ text. string_bytes text ≡ cells_shown from count machine.now.state.cells) }
{
    let mut text = String::new(alloc);
    for number in from..end_of_cells(machine, from, count) {
        let Some(word) = machine.cell(number) else {
            return Ok(text);
        };
        add_cell(&mut text, number, word)?;
    }
    Ok(text)
}

// After the last of so many cells from one on, of those that there are.
fn end_of_cells(machine: &Machine, from: u32, count: u32) -> u32
    ensures { result ≡ min (from + count) (length machine.now.state.cells) }
{
    from.saturating_add(count).min(machine.cells())
}
