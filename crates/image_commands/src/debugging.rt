// `debug IMG H D SCRIPT`: follows a script along the run of an image, both ways.
ghost use Rattle.std.specs.Prelude.{◌≡◌, ◌⊎◌, ◌≤◌, ◌+◌, [], ◌∷◌, length, Ok, IfOk, IfErr, OnOk, IfSome, string_bytes};
ghost use Rattle.command_plan.specs.pisa_image.Reading.{image_at};
ghost use Rattle.command_plan.specs.pisa_loader.Limiting.{limits_refusal};
ghost use Rattle.command_plan.specs.rpp_words.Limits.{IsLimits};
ghost use Rattle.command_plan.specs.rpp_words.declared.input.TheConstants.{MOST_DEEP};
ghost use Rattle.command_plan.specs.pisa_scripts.declared.lines.TheConstants.{MOST_SCRIPT};
ghost use Rattle.debugger_scripts.specs.Scripts.{script_of};
ghost use Rattle.two_way_debugger.specs.Shown.{shown, spent_in};
ghost use Rattle.command_plan.specs.Files.{OnlyReads, UnreadCause, image_file, script_file};
ghost use Rattle.command_plan.specs.Plans.{planned, GivesPlan};
ghost use Rattle.image_commands.specs.DebugPlans.{start_position, followed, IsScriptPlan, IsRoomPlan, IsDebugPlan, DebugsFile, MovesSome, IsScriptShort, IsRoomShort, IsDebugShort, DebugsFileShort};

use command_plan::{
    ImageError, MOST_IMAGE, NoPlan, Plan, Room, Shelf, Verdict, bad_command_line, check_limits,
    image_line, load, load_line, read_both, read_image,
};
use debugger_scripts::{Command, MOST_SCRIPT, ScriptError, read_script};
use image_inverter::{Image, Input, Limits, MOST_DEEP, NoMemory};
use std::alloc::Global;
use std::sync::ledger::Ledger;
use two_way_debugger::{Debugger, Machine, Steps};

/// Follows the script in a file along the run of the image in a file, from the loaded memory on,
/// and reports what its commands print. It makes the steps of their moves and no others, and none
/// if a file cannot be read.
pub fn debug<S: Shelf, L: Ledger>(
    alloc: Global,
    shelf: &mut S,
    image: &str,
    script: &str,
    room: Room,
    steps: &mut Steps<L>,
) -> Result<Plan, NoPlan>
    ensures plan { GivesPlan (S.texts shelf.old)
        (DebugsFile image.now room script.now steps.old steps.new) result }
    ensures unread { IfErr result (UnreadCause (steps.new ≡ steps.old)) }
    ensures short { IfErr result (λ _. DebugsFileShort image.now room script.now
        steps.old steps.new (S.texts shelf.old)) }
    ensures reads { OnlyReads (S.texts shelf.old) (S.texts shelf.new) (S.faults shelf.old)
        (S.faults shelf.new)
        (image_file image.now ∷ script_file script.now ∷ []) result }
{
    let read = read_both(
        alloc,
        shelf,
        image,
        MOST_IMAGE as u64,
        script,
        MOST_SCRIPT as u64,
    )?;
    Ok(debug_over(alloc, &read.first, &read.second, room, steps)?)
}

fn debug_over<L: Ledger>(
    alloc: Global,
    bytes: &[u8],
    script: &[u8],
    room: Room,
    steps: &mut Steps<L>,
) -> Result<Plan, NoMemory>
    requires { length script.now ≤ MOST_SCRIPT }
    ensures plan { IfOk result (λ plan. IsDebugPlan (image_at bytes.now) room
        script.now steps.old steps.new (planned plan)) }
    ensures short { IfErr result (λ _. (steps.new ≡ steps.old)
        ⊎ IsDebugShort (image_at bytes.now) room script.now steps.old steps.new) }
{
    match read_image(alloc, bytes) {
        Ok(noted) => debug_sized(alloc, noted.into_parts().0, script, room, steps),
        Err(ImageError::NoMemory) => Err(NoMemory),
        Err(e) => Ok(Plan::prints(Verdict::ImageRefused, image_line(alloc, e)?)),
    }
}

// The sizes of heap and stack are tried before the script.
fn debug_sized<L: Ledger>(
    alloc: Global,
    image: Image,
    script: &[u8],
    room: Room,
    steps: &mut Steps<L>,
) -> Result<Plan, NoMemory>
    requires { length script.now ≤ MOST_SCRIPT }
    ensures plan { IfOk result (λ plan. IsRoomPlan (limits_refusal room.heap room.deep MOST_DEEP)
        image (record { heap = room.heap; deep = room.deep }) script.now steps.old steps.new
        (planned plan)) }
    ensures short { IfErr result (λ _. (steps.new ≡ steps.old)
        ⊎ IsRoomShort (limits_refusal room.heap room.deep MOST_DEEP) image
        (record { heap = room.heap; deep = room.deep }) script.now steps.old steps.new) }
{
    match check_limits(room.heap, room.deep, MOST_DEEP) {
        Ok(limits) => debug_script(alloc, image, limits, script, steps),
        Err(e) => Ok(Plan::prints(Verdict::InputRefused, load_line(alloc, e)?)),
    }
}

// The script is checked, and then it is followed.
fn debug_script<L: Ledger>(
    alloc: Global,
    image: Image,
    limits: Limits,
    script: &[u8],
    steps: &mut Steps<L>,
) -> Result<Plan, NoMemory>
    requires script { length script.now ≤ MOST_SCRIPT }
    requires limits { IsLimits limits }
    ensures plan { IfOk result (λ plan. IsScriptPlan (script_of script.now) image limits steps.old
        steps.new (planned plan)) }
    ensures short { IfErr result (λ _. (steps.new ≡ steps.old)
        ⊎ IsScriptShort (script_of script.now) image limits steps.old steps.new) }
{
    match read_script(alloc, script) {
        Ok(commands) => follow_script(alloc, image, limits, &commands, steps),
        Err(ScriptError::NoMemory) => Err(NoMemory),
        Err(ScriptError::BadCommand { line }) => {
            Ok(Plan::prints(Verdict::InputRefused, bad_command_line(alloc, line)?))
        }
    }
}

// The plan that prints what these commands print from the loaded memory on.
fn follow_script<L: Ledger>(
    alloc: Global,
    image: Image,
    limits: Limits,
    commands: &[Command],
    steps: &mut Steps<L>,
) -> Result<Plan, NoMemory>
    requires { IsLimits limits }
    ensures plan { IfOk result (λ plan. planned plan ≡ followed image limits commands.now) }
    ensures counter { OnOk result (steps.new
        ≡ steps.old + spent_in commands.now (start_position image limits)) }
    ensures short { IfErr result (λ _. (steps.new ≡ steps.old)
        ⊎ MovesSome commands.now (start_position image limits) steps.old steps.new) }
{
    let input = Input {
        words: Vec::new(alloc),
    };
    let machine = load(alloc, image, limits, &input)?;
    let text = follow_from(alloc, machine, commands, steps)?;
    Ok(Plan::prints(Verdict::Done, text))
}

// What these commands print from the state of a machine.
fn follow_from<L: Ledger>(
    alloc: Global,
    machine: Machine,
    commands: &[Command],
    steps: &mut Steps<L>,
) -> Result<String, NoMemory>
    ensures text { IfOk result (λ text. string_bytes text ≡ shown commands.now machine) }
    ensures counter { OnOk result (steps.new ≡ steps.old + spent_in commands.now machine) }
    ensures short { IfErr result (λ _. MovesSome commands.now machine steps.old steps.new) }
{
    let mut debugger = Debugger::new(machine);
    let mut text = String::new(alloc);
    debugger.follow(alloc, commands, &mut text, steps)?;
    Ok(text)
}
