// `trace F H D SCRIPT [INPUT]`: follows a script along the run of a program, both ways.
ghost use Rattle.std.specs.Prelude.{◌≡◌, ◌≤◌, ◌∷◌, length, option_map, List, ℕ, IfOk, string_bytes};
ghost use Rattle.run_settings.specs.rpp_tree.Views.{source_of};
ghost use Rattle.run_settings.specs.rpp_tree.declared.limits.TheConstants.{MOST_BYTES};
ghost use Rattle.run_settings.specs.pisa_scripts.declared.lines.TheConstants.{MOST_SCRIPT};
ghost use Rattle.debugger_scripts.specs.Scripts.{script_of};
ghost use Rattle.source_debugger.specs.Standing.{IsValidRun};
ghost use Rattle.run_settings.specs.pisa_loader.declared.input.TheConstants.{MOST_INPUT};
ghost use Rattle.run_settings.specs.command_plan.Plans.{planned, prints, GivesPlan, IsInputText};
ghost use Rattle.run_settings.specs.rpp_ports.Ports.{IsTextOf};
ghost use Rattle.run_settings.specs.command_plan.Files.{OnlyReads, source_file, input_files, script_file};
ghost use Rattle.trace_commands.specs.TracePlans.{FollowsScript, IsTraceScriptPlan, IsTracePlan, Traces};

use debugger_scripts::{Command, MOST_SCRIPT, ScriptError, read_script};
use run_settings::limits::MOST_BYTES;
use run_settings::{
    Checked, Input, Limits, NoMemory, NoPlan, Plan, Ready, Room, Shelf, Sizes, Verdict,
    bad_command_line, read_file, read_input_file, ready,
};
use source_debugger::SourceDebugger;
use std::alloc::Global;

// The texts that a command reads.
#[derive(Drop)]
struct Read {
    text: Vec<u8>,
    script: Vec<u8>,
    given: Vec<u8>,
}

/// Follows the script in a file along the run of the program in a file, on an input if there is
/// one, and reports what its commands print.
pub fn trace<S: Shelf>(
    alloc: Global,
    shelf: &mut S,
    file: &str,
    script: &str,
    input: &Option<String>,
    room: Room,
) -> Result<Plan, NoPlan>
    ensures plan { GivesPlan (S.texts shelf.old)
        (Traces file.now script.now (option_map string_bytes input.now) room)
        result }
    ensures reads { OnlyReads (S.texts shelf.old) (S.texts shelf.new) (S.faults shelf.old)
        (S.faults shelf.new)
        (source_file file.now ∷ script_file script.now ∷ input_files (option_map string_bytes input.now))
        result }
{
    let read = read_all(alloc, shelf, file, script, input)?;
    Ok(trace_text(alloc, &read, room)?)
}

// The texts of a source, a script, and an input if there is one.
fn read_all<S: Shelf>(
    alloc: Global,
    shelf: &mut S,
    file: &str,
    script: &str,
    input: &Option<String>,
) -> Result<Read, NoPlan>
    ensures text { IfOk result (λ read. IsTextOf (S.texts shelf.old) file.now read.text.items) }
    ensures script { IfOk result (λ read.
        IsTextOf (S.texts shelf.old) script.now read.script.items) }
    ensures input { IfOk result (λ read. IsInputText (S.texts shelf.old)
        (option_map string_bytes input.now) read.given.items) }
    ensures within { IfOk result (λ read. length read.text.items ≤ MOST_BYTES) }
    ensures within_script { IfOk result (λ read. length read.script.items ≤ MOST_SCRIPT) }
    ensures within_input { IfOk result (λ read. length read.given.items ≤ MOST_INPUT) }
    ensures reads { OnlyReads (S.texts shelf.old) (S.texts shelf.new) (S.faults shelf.old)
        (S.faults shelf.new)
        (source_file file.now ∷ script_file script.now ∷ input_files (option_map string_bytes input.now))
        result }
{
    let text = read_file(alloc, shelf, file, MOST_BYTES as u64)?;
    let script = read_file(alloc, shelf, script, MOST_SCRIPT as u64)?;
    let given = read_input_file(alloc, shelf, input)?;
    Ok(Read {
        text,
        script,
        given,
    })
}

// The script is tried last. No step is made of the image, so their number is 0.
fn trace_text(alloc: Global, read: &Read, room: Room) -> Result<Plan, NoMemory>
    requires text { length read.now.text.items ≤ MOST_BYTES }
    requires script { length read.now.script.items ≤ MOST_SCRIPT }
    requires given { length read.now.given.items ≤ MOST_INPUT }
    ensures { IfOk result (λ plan. IsTracePlan read.now.text.items read.now.script.items
        read.now.given.items room (planned plan)) }
{
    let sizes = Sizes { room, bound: 0 };
    match ready(alloc, &read.text, &read.given, sizes)? {
        Ready::Refused(plan) => Ok(plan),
        Ready::Runs(setting) => trace_script(
            alloc,
            setting.checked,
            &setting.input,
            &read.script,
            setting.limits,
        ),
    }
}

// The script is checked, and then it is followed.
fn trace_script(
    alloc: Global,
    checked: Checked,
    input: &Input,
    script: &[u8],
    limits: Limits,
) -> Result<Plan, NoMemory>
    requires script { length script.now ≤ MOST_SCRIPT }
    requires run { IsValidRun (source_of checked) limits input.now.words.items }
    ensures { IfOk result (λ plan. IsTraceScriptPlan (script_of script.now) (source_of checked) limits
        input.now.words.items (planned plan)) }
{
    match read_script(alloc, script) {
        Ok(commands) => {
            let text = follow(alloc, checked, input, &commands, limits)?;
            Ok(Plan::prints(Verdict::Done, text))
        }
        Err(ScriptError::NoMemory) => Err(NoMemory),
        Err(ScriptError::BadCommand { line }) => {
            Ok(Plan::prints(Verdict::InputRefused, bad_command_line(alloc, line)?))
        }
    }
}

// What commands print from the start of a run on.
fn follow(
    alloc: Global,
    checked: Checked,
    input: &Input,
    commands: &[Command],
    limits: Limits,
) -> Result<String, NoMemory>
    requires { IsValidRun (source_of checked) limits input.now.words.items }
    ensures { IfOk result (λ text. FollowsScript commands.now (source_of checked) limits
        input.now.words.items (string_bytes text)) }
{
    let mut debugger = SourceDebugger::new(alloc, &checked, input, limits)?;
    let mut text = String::new(alloc);
    debugger.follow(alloc, commands, &mut text)?;
    Ok(text)
}
