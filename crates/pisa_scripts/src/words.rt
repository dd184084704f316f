// Directions, registers and cells as they are printed.
ghost use Rattle.std.specs.Prelude.{◌≡◌, ◌++◌, OnOk, OnErr, string_bytes};
ghost use Rattle.pisa_scripts.specs.Words.{direction as direction_text, register_line, register_lines, cell_line};

use std::alloc::AllocError;

/// A direction, `1` or `-1`.
pub fn direction(back: bool) -> &'static str
    ensures { result.now ≡ direction_text back }
{
    if back { "-1" } else { "1" }
}

/// Adds the lines of the registers that are not 0. If memory runs out, the text is as before.
pub fn add_registers(text: &mut String, regs: &[u32]) -> Result<(), AllocError>
    ensures added { OnOk result (string_bytes text.new
        ≡ string_bytes text.old ++ register_lines 0 regs.now) }
    ensures kept { OnErr result (string_bytes text.new ≡ string_bytes text.old) }
{
    let mut lines = String::new(*text.allocator());
    for (number, word) in regs.iter().enumerate() {
        add_register(&mut lines, number, *word)?;
    }
    text.push_str(lines.as_str())
}

// The line on a register, unless it is 0.
fn add_register(text: &mut String, number: usize, word: u32) -> Result<(), AllocError>
    ensures { OnOk result (string_bytes text.new ≡ string_bytes text.old ++ register_line number word) }
{
    if word == 0 {
        return Ok(());
    }
    let value = word.cast_signed();
    write!(text, "${number} = {value}\n")
}

/// Adds the line on a cell. If memory runs out, the text is as before.
pub fn add_cell(text: &mut String, number: u32, word: u32) -> Result<(), AllocError>
    ensures added { OnOk result (string_bytes text.new
        ≡ string_bytes text.old ++ cell_line number word) }
    ensures kept { OnErr result (string_bytes text.new ≡ string_bytes text.old) }
{
    let value = word.cast_signed();
    let line = format!(in *text.allocator(); "cell {number} = {value}\n")?;
    text.push_str(line.as_str())
}
