// What `wrap` prints.
ghost use Rattle.std.specs.Prelude.{◌≡◌, ◌≤◌, ◌+◌, ◌++◌, ◌^◌, ◌<◌, All, length, string_bytes, IfOk, OnOk};
ghost use Rattle.std.specs.Str.{IsAscii};
ghost use Rattle.program_runs.specs.run_settings.roopl_semantics.Report.{signed_decimal};
ghost use Rattle.command_plan.specs.Plans.{planned, prints};
ghost use Rattle.wrap_commands.specs.WrapShown.{HasAsciiFieldName, result_line, word_lines, initial_line, unknown_result_line};

use command_plan::{Plan, Verdict};
use program_runs::InputField;
use std::alloc::{AllocError, Global};
use store_report::{Machine, word_at};

/// Adds the lines of results whose words are in a memory from an address on.
pub(crate) fn add_results(
    out: &mut String,
    machine: &Machine,
    at: u32,
    results: &[InputField],
) -> Result<(), AllocError>
    requires names { All HasAsciiFieldName results.now }
    requires room { at + length results.now < 2 ^ 32 }
    ensures { OnOk result (string_bytes out.new
        ≡ string_bytes out.old ++ word_lines results.now machine.now.state.cells at) }
{
    match results {
        [] => Ok(()),
        [field, others @ ..] => {
            add_result(out, field, word_at(machine, u64::from(at)))?;
            add_results(out, machine, at + 1, others)
        }
    }
}

// The line of a result.
fn add_result(out: &mut String, field: &InputField, word: u32) -> Result<(), AllocError>
    requires { HasAsciiFieldName field.now }
    ensures { OnOk result (string_bytes out.new
        ≡ string_bytes out.old ++ result_line field.now.name (signed_decimal word)) }
{
    add_name(out, field.name.bytes())?;
    out.push_str(" = ")?;
    add_word(out, word)?;
    out.push('\n')
}

// A word in signed decimal.
fn add_word(out: &mut String, word: u32) -> Result<(), AllocError>
    ensures { OnOk result (string_bytes out.new ≡ string_bytes out.old ++ signed_decimal word) }
{
    if word < 1 << 31 {
        write!(out, "{word}")
    } else {
        let below = 0u32.wrapping_sub(word);
        write!(out, "-{below}")
    }
}

// The bytes of a name.
fn add_name(out: &mut String, bytes: &[u8]) -> Result<(), AllocError>
    requires { IsAscii bytes.now }
    ensures { OnOk result (string_bytes out.new ≡ string_bytes out.old ++ bytes.now) }
{
    for byte in bytes {
        out.push(char::from(*byte))?;
    }
    Ok(())
}

/// A text followed by the line on the number of the program's cells.
pub(crate) fn with_initial(text: String, count: u32) -> Result<String, AllocError>
    ensures { IfOk result (λ longer.
        string_bytes longer ≡ string_bytes text ++ initial_line count) }
{
    let mut text = text;
    write!(text, "initial {count} cells\n")?;
    Ok(text)
}

/// The plan that refuses the name with this number.
pub(crate) fn refuse_name(alloc: Global, at: usize) -> Result<Plan, AllocError>
    ensures { IfOk result (λ plan.
        planned plan ≡ prints Verdict.InputRefused (unknown_result_line at)) }
{
    let text = format!(in alloc; "refused 44 UnknownResult at {at}\n")?;
    Ok(Plan::prints(Verdict::InputRefused, text))
}
