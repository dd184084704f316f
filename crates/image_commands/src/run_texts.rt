// What is printed of a run of an image.
ghost use Rattle.std.specs.Prelude.{◌≡◌, ◌++◌, None, All, IfOk, OnOk, string_bytes};
ghost use Rattle.std.specs.Str.{IsAscii};
ghost use Rattle.image_inverter.specs.pisa_isa.Notes.{HasAsciiText};
ghost use Rattle.image_commands.specs.RunTexts.{holds_place, narrower as narrower_of, narrowed as narrowed_of, narrowest as narrowest_of, width as width_of, from_line, name_line, name_lines, place_lines, end_lines as lines_of_end};

use debugger_scripts::{add_registers, add_stop, direction};
use image_inverter::{Core, FieldName, Mark, Notes};
use std::alloc::{AllocError, Global};
use two_way_debugger::{Machine, RunEnd, word_at};

/// What is printed of a run: the stop reason, the steps, the code address, and its debug
/// information.
pub fn end_lines(
    alloc: Global,
    end: RunEnd,
    machine: &Machine,
    notes: &Notes,
) -> Result<String, AllocError>
    requires names { All HasAsciiText notes.now.names }
    ensures { IfOk result (λ text. string_bytes text
        ≡ lines_of_end notes.now (record {
          why = end.stop;
          spent = end.spent;
          last = machine.now.state;
        })) }
{
    let mut text = String::new(alloc);
    add_stop(&mut text, end.stop)?;
    let spent = end.spent;
    write!(text, "steps {spent}\n")?;
    let core = machine.core();
    add_place(&mut text, core)?;
    add_statement(&mut text, narrowest(core.pc, &notes.marks))?;
    add_registers(&mut text, &core.regs)?;
    add_names(&mut text, machine, &notes.names)?;
    Ok(text)
}

// The code address of a machine.
fn add_place(text: &mut String, core: &Core) -> Result<(), AllocError>
    ensures { OnOk result (string_bytes text.new
        ≡ string_bytes text.old ++ place_lines core.now.pc core.now.br core.now.back) }
{
    let pc = core.pc;
    let br = core.br.cast_signed();
    let dir = direction(core.back);
    write!(text, "pc {pc}\nbr {br}\ndir {dir}\n")
}

// The mark of the fewest cells of those that hold a place, the first of equal ones.
fn narrowest(pc: i64, marks: &[Mark]) -> Option<Mark>
    ensures { result ≡ narrowest_of pc None marks.now }
{
    let mut best = None;
    for mark in marks {
        best = narrowed(pc, best, *mark);
    }
    best
}

fn narrowed(pc: i64, best: Option<Mark>, mark: Mark) -> Option<Mark>
    ensures { result ≡ narrowed_of pc best mark }
{
    if (mark.first as i64) <= pc && pc < (mark.end as i64) {
        narrower(best, mark)
    } else {
        best
    }
}

fn narrower(best: Option<Mark>, mark: Mark) -> Option<Mark>
    ensures { result ≡ narrower_of best mark }
{
    match best {
        None => Some(mark),
        Some(found) => {
            if width(mark) < width(found) {
                Some(mark)
            } else {
                Some(found)
            }
        }
    }
}

fn width(mark: Mark) -> u32
    ensures { result ≡ width_of mark }
{
    mark.end.saturating_sub(mark.first)
}

// The line on the statement at which a machine is, if it is at one.
fn add_statement(text: &mut String, mark: Option<Mark>) -> Result<(), AllocError>
    ensures { OnOk result (string_bytes text.new ≡ string_bytes text.old ++ from_line mark) }
{
    match mark {
        None => Ok(()),
        Some(found) => {
            let at = found.at;
            write!(text, "from {at}\n")
        }
    }
}

// The lines of the names.
fn add_names(text: &mut String, machine: &Machine, names: &[FieldName]) -> Result<(), AllocError>
    requires { All HasAsciiText names.now }
    ensures { OnOk result (string_bytes text.new
        ≡ string_bytes text.old ++ name_lines machine.now.state.cells names.now) }
{
    for name in names {
        add_name(text, machine, name)?;
    }
    Ok(())
}

// A name with the word in its cell.
fn add_name(text: &mut String, machine: &Machine, name: &FieldName) -> Result<(), AllocError>
    requires { IsAscii name.now.text }
    ensures { OnOk result (string_bytes text.new
        ≡ string_bytes text.old ++ name_line machine.now.state.cells name.now) }
{
    add_text(text, name.text.bytes())?;
    let value = word_at(machine, u64::from(name.cell)).cast_signed();
    write!(text, " = {value}\n")
}

fn add_text(text: &mut String, bytes: &[u8]) -> Result<(), AllocError>
    requires { IsAscii bytes.now }
    ensures { OnOk result (string_bytes text.new ≡ string_bytes text.old ++ bytes.now) }
{
    for byte in bytes {
        text.push(char::from(*byte))?;
    }
    Ok(())
}
