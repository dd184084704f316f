// `run IMG H D STEPS [STATE SAVE]`: runs an image.
ghost use Rattle.std.specs.Prelude.{◌≡◌, ◌<◌, ◌≤◌, ◌+◌, ◌^◌, ◌∷◌, Ok, All, option_map, IfOk, IfErr};
ghost use Rattle.image_inverter.specs.pisa_isa.Runs.{run as run_of_code};
ghost use Rattle.image_inverter.specs.pisa_isa.Notes.{HasAsciiText};
ghost use Rattle.command_plan.specs.pisa_image.Reading.{image_at};
ghost use Rattle.command_plan.specs.pisa_loader.Limiting.{limits_refusal};
ghost use Rattle.command_plan.specs.pisa_loader.States.{Gives};
ghost use Rattle.command_plan.specs.rpp_words.Limits.{IsLimits};
ghost use Rattle.command_plan.specs.declared.reading.TheConstants.{MOST_IMAGE};
ghost use Rattle.command_plan.specs.Files.{state_of_names, save_of_names, OnlyReads, UnreadCause, image_file, state_files};
ghost use Rattle.command_plan.specs.Plans.{planned, written_file, GivesPlan};
ghost use Rattle.image_commands.specs.ImagePlans.{position_at_start, saved as saved_state, ran as ran_plan, stop_verdict as verdict_of_stop, IsRunPlan, IsSizedPlan, IsRanPlan, RunsFile};

use crate::run_texts::end_lines;
use command_plan::{
    ImageError, LoadError, NoPlan, Plan, Shelf, Sizes, StateNames, Verdict, Writing, check_limits,
    image_line, load, load_line, load_state, read_image, read_images, save_state,
};
use image_inverter::{Image, Input, Limits, MOST_DEEP, NoMemory, Noted, Notes, Stop};
use std::alloc::Global;
use std::sync::ledger::Ledger;
use two_way_debugger::{Machine, RunEnd, Steps};

/// Runs the image in a file, from the loaded memory or from a state, and reports its end. It makes
/// the steps of that run and no others, and none if a file cannot be read.
pub fn run<S: Shelf, L: Ledger>(
    alloc: Global,
    shelf: &mut S,
    image: &str,
    states: &Option<StateNames>,
    sizes: Sizes,
    steps: &mut Steps<L>,
) -> Result<Plan, NoPlan>
    requires { sizes.bound < 2 ^ 63 }
    ensures plan { GivesPlan (S.texts shelf.old)
        (RunsFile image.now sizes (state_of_names states.now)
        (save_of_names states.now) steps.old steps.new) result }
    ensures within { steps.new ≤ steps.old + sizes.bound }
    ensures unread { IfErr result (UnreadCause (steps.new ≡ steps.old)) }
    ensures reads { OnlyReads (S.texts shelf.old) (S.texts shelf.new) (S.faults shelf.old)
        (S.faults shelf.new)
        (image_file image.now ∷ state_files (state_of_names states.now)) result }
{
    let read = read_images(alloc, shelf, image, states)?;
    Ok(run_over(alloc, &read.image, &read.state, states, sizes, steps)?)
}

fn run_over<L: Ledger>(
    alloc: Global,
    bytes: &[u8],
    state: &Option<Vec<u8>>,
    states: &Option<StateNames>,
    sizes: Sizes,
    steps: &mut Steps<L>,
) -> Result<Plan, NoMemory>
    requires { sizes.bound < 2 ^ 63 }
    ensures plan { IfOk result (λ plan. IsRunPlan (image_at bytes.now) sizes
        (option_map (λ v. v.items) state.now)
        (save_of_names states.now) steps.old steps.new (planned plan)) }
    ensures within { steps.new ≤ steps.old + sizes.bound }
{
    match read_image(alloc, bytes) {
        Ok(noted) => run_sized(alloc, noted, state, states, sizes, steps),
        Err(ImageError::NoMemory) => Err(NoMemory),
        Err(e) => Ok(Plan::prints(Verdict::ImageRefused, image_line(alloc, e)?)),
    }
}

// The sizes of heap and stack are tried before the state.
fn run_sized<L: Ledger>(
    alloc: Global,
    noted: Noted,
    state: &Option<Vec<u8>>,
    states: &Option<StateNames>,
    sizes: Sizes,
    steps: &mut Steps<L>,
) -> Result<Plan, NoMemory>
    requires { sizes.bound < 2 ^ 63 }
    ensures plan { IfOk result (λ plan. IsSizedPlan
        (limits_refusal sizes.room.heap sizes.room.deep MOST_DEEP) noted
        (record { heap = sizes.room.heap; deep = sizes.room.deep })
        (option_map (λ v. v.items) state.now) (save_of_names states.now) sizes.bound steps.old
        steps.new (planned plan)) }
    ensures within { steps.new ≤ steps.old + sizes.bound }
{
    match check_limits(sizes.room.heap, sizes.room.deep, MOST_DEEP) {
        Ok(limits) => {
            let bounds = Bounds {
                limits,
                bound: sizes.bound,
            };
            run_from(alloc, noted, bounds, state, states, steps)
        }
        Err(e) => Ok(Plan::prints(Verdict::InputRefused, load_line(alloc, e)?)),
    }
}

// The sizes of heap and stack that were checked, and the number of steps.
#[derive(Clone, Copy)]
struct Bounds {
    limits: Limits,
    bound: u64,
}

// The state is checked, and then the run is made.
fn run_from<L: Ledger>(
    alloc: Global,
    noted: Noted,
    bounds: Bounds,
    state: &Option<Vec<u8>>,
    states: &Option<StateNames>,
    steps: &mut Steps<L>,
) -> Result<Plan, NoMemory>
    requires limits { IsLimits bounds.limits }
    requires bound { bounds.bound < 2 ^ 63 }
    ensures plan { IfOk result (λ plan.
        IsRanPlan (position_at_start noted.image bounds.limits (option_map (λ v. v.items) state.now))
        noted.notes (save_of_names states.now) bounds.bound steps.old steps.new (planned plan)) }
    ensures within { steps.new ≤ steps.old + bounds.bound }
{
    let (image, notes) = noted.into_parts();
    match first_machine(alloc, image, bounds.limits, state) {
        Ok(machine) => run_machine(alloc, machine, &notes, states, bounds.bound, steps),
        Err(LoadError::NoMemory) => Err(NoMemory),
        Err(e) => Ok(Plan::prints(Verdict::ImageRefused, load_line(alloc, e)?)),
    }
}

// The machine where a run begins: at the loaded memory, or at a state.
fn first_machine(
    alloc: Global,
    image: Image,
    limits: Limits,
    state: &Option<Vec<u8>>,
) -> Result<Machine, LoadError>
    requires { IsLimits limits }
    ensures exact { Gives (λ machine. machine) result
        (position_at_start image limits (option_map (λ v. v.items) state.now)) }
    ensures first { IfOk result (λ machine. machine.made ≡ 0) }
{
    match state {
        Some(bytes) => load_state(alloc, image, limits, bytes),
        None => {
            let input = Input {
                words: Vec::new(alloc),
            };
            match load(alloc, image, limits, &input) {
                Ok(machine) => Ok(machine),
                Err(_no_memory) => Err(LoadError::NoMemory),
            }
        }
    }
}

// The plan of a machine's run.
fn run_machine<L: Ledger>(
    alloc: Global,
    machine: Machine,
    notes: &Notes,
    states: &Option<StateNames>,
    bound: u64,
    steps: &mut Steps<L>,
) -> Result<Plan, NoMemory>
    requires first { machine.made ≡ 0 }
    requires bound { bound < 2 ^ 63 }
    requires names { All HasAsciiText notes.now.names }
    ensures plan { IfOk result (λ plan. planned plan
        ≡ ran_plan notes.now (save_of_names states.now)
        (run_of_code machine.image.code bound machine.state)) }
    ensures counter { steps.new
        ≡ steps.old + (run_of_code machine.image.code bound machine.state).spent }
    ensures within { steps.new ≤ steps.old + bound }
{
    let mut machine = machine;
    let end = machine.run(bound, steps);
    ran(alloc, &machine, notes, end, states)
}

// The plan of a run that ended, with the machine where it did.
fn ran(
    alloc: Global,
    machine: &Machine,
    notes: &Notes,
    end: RunEnd,
    states: &Option<StateNames>,
) -> Result<Plan, NoMemory>
    requires names { All HasAsciiText notes.now.names }
    ensures { IfOk result (λ plan. planned plan
        ≡ ran_plan notes.now (save_of_names states.now)
        (record { why = end.stop; spent = end.spent; last = machine.now.state })) }
{
    let text = end_lines(alloc, end, machine, notes)?;
    let writing = saved(alloc, machine, states)?;
    Ok(Plan {
        verdict: verdict_of(end.stop),
        text,
        writing,
    })
}

// The state of a machine, to be written if a file is named for it.
fn saved(
    alloc: Global,
    machine: &Machine,
    states: &Option<StateNames>,
) -> Result<Option<Writing>, NoMemory>
    ensures { IfOk result (λ writing. option_map written_file writing
        ≡ saved_state (save_of_names states.now) machine.now.state) }
{
    let Some(names) = states else {
        return Ok(None);
    };
    let bytes = save_state(alloc, machine)?;
    Ok(Some(Writing {
        name: names.save.clone()?,
        bytes,
    }))
}

fn verdict_of(stop: Stop) -> Verdict
    ensures { result ≡ verdict_of_stop stop }
{
    match stop {
        Stop::Finished => Verdict::Done,
        Stop::Trap(_) => Verdict::Trapped,
        Stop::Bound => Verdict::Bound,
        Stop::Returned | Stop::BadAddress(_) | Stop::OffCode(_) => Verdict::Stopped,
    }
}
