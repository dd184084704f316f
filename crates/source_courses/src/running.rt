// Runs of a program under a watch.
ghost use Rattle.std.specs.Prelude.{◌≡◌, ◌+◌, ◌-◌, ◌*◌, ◌<◌, ◌≤◌, ◌^◌, true, false, length, IfOk, IfErr, OnOk, OnErr};
ghost use Rattle.source_execution.specs.rpp_words.Limits.{IsLimits};
ghost use Rattle.source_execution.specs.rpp_tree.Views.{source_of};
ghost use Rattle.source_execution.specs.meaning_points.Trail.{trail};
ghost use Rattle.meaning_reversed.specs.meaning_machine.Machine.{next};
ghost use Rattle.meaning_reversed.specs.meaning_machine.Turned.{turn as turned_round};
ghost use Rattle.meaning_reversed.specs.meaning_machine.Reversed.{back as next_back};
ghost use Rattle.source_execution.specs.source_steps.Metered.{MeteredGives, metered, IsFault, OnFault};
ghost use Rattle.source_execution.specs.source_statements.Steps.{StepFalls};
ghost use Rattle.source_execution.specs.Standing.{config_at, setting_at, next_place};
ghost use Rattle.source_courses.specs.declared.running.TheConstants.{MOST_COST};
ghost use Rattle.source_courses.specs.Valid.{IsValidRun};
ghost use Rattle.source_courses.specs.Watched.{surely as surely_in, counted as counted_at, wanted as wanted_at};
ghost use Rattle.source_courses.specs.Courses.{IsUnderWay, IsTurned, IsThere, Holds, heap_of};
ghost use Rattle.source_courses.specs.Ended.{IsEnded, IsStopped, HasStopped};

use crate::watching::{Watching, ahead, behind, surely, wanted};
use meaning_reversed::laws::steps_are_undone;
use source_execution::{Checked, Execution, Input, Lack, Limits, NoMemory, Stop, Variable, breaks};
use std::alloc::Global;

/// The highest cost of a run that is looked at: longer ones would take centuries, and are refused
/// as `Full`.
pub const MOST_COST: u64 = u64::MAX;

/// A program's run on an input.
#[derive(Clone, Copy)]
pub struct Run<'a> {
    pub alloc: Global,
    pub checked: &'a Checked,
    pub limits: Limits,
    pub input: &'a Input,
}

/// An active run: its position, the fuel that it has left, how many trace points it has passed, and
/// whether it is aborted. A fault does not abort it.
#[derive(Drop)]
pub struct Course<'a> {
    pub execution: Execution<'a>,
    pub fuel: u64,
    pub passed: u64,
    pub broken: bool,
}

/// A trace point that was met: the statement's offset, how many parameters the method has, its
/// object, the number of active calls, and the method's variables, the innermost first.
#[derive(Drop)]
pub struct Arrival {
    pub place: u32,
    pub params: usize,
    pub object: u32,
    pub depth: u32,
    pub variables: Vec<Variable>,
}

/// How a run under a watch ended.
#[derive(Drop)]
pub enum Ended {
    /// At the trace point that the watch looks for.
    At {
        arrival: Arrival,
        watching: Watching,
    },
    /// At the end, after all trace points.
    Over {
        watching: Watching,
    },
    /// With a fault, after all trace points.
    Fault {
        code: u32,
        watching: Watching,
    },
}

/// The run before its first step. The only error is that memory ran out.
pub fn begin<'a>(run: &Run<'a>) -> Result<Course<'a>, NoMemory>
    requires { IsLimits run.now.limits }
    ensures starts { IfOk result (λ course. IsUnderWay (source_of run.now.checked.now)
        run.now.limits run.now.input.now.words.items MOST_COST course) }
    ensures first { IfOk result (λ course. course.passed ≡ 0) }
    ensures fuel { IfOk result (λ course. course.fuel ≡ 2 ^ 64 - 1) }
{
    let execution = Execution::start(run.alloc, run.checked, run.limits, run.input)?;
    Ok(Course {
        execution,
        fuel: MOST_COST,
        passed: 0,
        broken: false,
    })
}

// How many trace points are passed after the statement that begins, if one does. More than 2 ^ 64
// are refused as `Full`.
fn counted(passed: u64, place: Option<u32>) -> Result<u64, Stop>
    ensures count { IfOk result (λ count. count ≡ counted_at passed place) }
    ensures memory { IfErr result (λ why. why ≡ Stop.Lacks Lack.Full) }
{
    match place {
        None => Ok(passed),
        Some(_place) => match passed.checked_add(1) {
            None => Err(Stop::Lacks(Lack::Full)),
            Some(more) => Ok(more),
        },
    }
}

// A step, by the statement that begins, if one does. An error aborts the run, unless it is a fault:
// that leaves it where it was.
fn step(course: &mut Course, here: Option<u32>) -> Result<(), Stop>
    requires whole { course.old.execution.broken ≡ false }
    requires here { here ≡ next_place (config_at course.old.execution).rest }
    ensures gives { MeteredGives (λ u. config_at course.new.execution) result course.new.fuel
        (metered course.old.fuel
        (next (setting_at course.old.execution) (config_at course.old.execution))) }
    ensures passed { OnOk result (course.new.passed ≡ counted_at course.old.passed
        (next_place (config_at course.old.execution).rest)) }
    ensures whole { OnOk result (course.new.execution.broken ≡ false) }
    ensures breaks { IfErr result (λ why. course.new.broken ≡ false → IsFault why) }
    ensures stays { OnFault result (IsThere course.old course.new) }
    ensures setting { setting_at course.new.execution ≡ setting_at course.old.execution }
    ensures falls { OnOk result (StepFalls (config_at course.old.execution)
        (2 * course.new.fuel + length (config_at course.new.execution).around)
        (2 * course.old.fuel + length (config_at course.old.execution).around)) }
{
    match counted(course.passed, here) {
        Err(why) => {
            course.broken = true;
            Err(why)
        }
        Ok(passed) => match course.execution.step(&mut course.fuel) {
            Ok(()) => {
                course.passed = passed;
                Ok(())
            }
            Err(why) => {
                course.broken = breaks(why);
                Err(why)
            }
        },
    }
}

// How many trace points are passed before the one at this offset, if there is one.
fn uncounted(passed: u64, place: Option<u32>) -> u64
    requires { 0 < passed }
    ensures { passed ≡ counted_at result place }
{
    match place {
        None => passed,
        Some(_place) => passed - 1,
    }
}

// A step back of a run that is reversed. An error breaks the run off.
fn step_back(course: &mut Course) -> Result<(), Stop>
    requires whole { course.old.execution.broken ≡ false }
    requires some { 0 < course.old.passed }
    ensures gives { MeteredGives (λ u. config_at course.new.execution) result course.new.fuel
        (metered course.old.fuel
        (next_back (setting_at course.old.execution) (config_at course.old.execution))) }
    ensures passed { OnOk result (course.old.passed ≡ counted_at course.new.passed
        (next_place (config_at course.new.execution).past)) }
    ensures whole { OnOk result (course.new.execution.broken ≡ false) }
    ensures breaks { OnErr result (course.new.broken ≡ true) }
    ensures stays { OnOk result (course.new.broken ≡ course.old.broken) }
    ensures setting { setting_at course.new.execution ≡ setting_at course.old.execution }
    ensures falls { OnOk result (StepFalls (config_at course.old.execution)
        (2 * course.new.fuel + length (config_at course.new.execution).around)
        (2 * course.old.fuel + length (config_at course.old.execution).around)) }
    ensures less { course.new.fuel ≤ course.old.fuel }
{
    match course.execution.step_back(&mut course.fuel) {
        Ok(()) => {
            course.passed = uncounted(course.passed, course.execution.last_place());
            Ok(())
        }
        Err(why) => {
            course.broken = true;
            Err(why)
        }
    }
}

// Steps back until no more trace points are passed than these, or the run is at its start. An error
// breaks the run off.
fn go_back<'a>(run: &Run<'a>, course: &mut Course<'a>, most: u64)
    requires run { IsValidRun (source_of run.now.checked.now) run.now.limits
        run.now.input.now.words.items }
    requires turned { IsTurned (source_of run.now.checked.now) run.now.limits
        run.now.input.now.words.items MOST_COST course.old }
    ensures turned { course.new.broken ≡ false → IsTurned (source_of run.now.checked.now)
        run.now.limits run.now.input.now.words.items MOST_COST course.new }
{
    run.checked.program();
    steps_are_undone();
    while course.passed > most {
        if course.execution.is_over() {
            return;
        }
        match step_back(course) {
            Ok(()) => {}
            Err(_stop) => return,
        }
    }
}

// The run turns round.
fn turn(course: &mut Course)
    requires { course.old.execution.broken ≡ false }
    ensures turned { config_at course.new.execution
        ≡ turned_round (config_at course.old.execution) }
    ensures whole { course.new.execution.broken ≡ false }
    ensures setting { setting_at course.new.execution ≡ setting_at course.old.execution }
    ensures same { course.new ≡ record course.old { execution = course.new.execution } }
{
    course.execution.turn();
}

// Turns round, steps back until no more trace points are passed than these, and turns again. An
// error breaks the run off.
fn rewind<'a>(run: &Run<'a>, course: &mut Course<'a>, most: u64)
    requires run { IsValidRun (source_of run.now.checked.now) run.now.limits
        run.now.input.now.words.items }
    requires under_way { IsUnderWay (source_of run.now.checked.now) run.now.limits
        run.now.input.now.words.items MOST_COST course.old }
    ensures holds { Holds (source_of run.now.checked.now) run.now.limits
        run.now.input.now.words.items course.new }
{
    turn(course);
    go_back(run, course, most);
    if !course.broken {
        turn(course);
    }
}

// A run that has gone too far for a watch steps back. A run that is aborted, or that a step back
// aborts, begins again.
fn make_ready<'a>(run: &Run<'a>, course: &mut Course<'a>, watching: Watching) -> Result<(), Lack>
    requires run { IsValidRun (source_of run.now.checked.now) run.now.limits
        run.now.input.now.words.items }
    requires holds { Holds (source_of run.now.checked.now) run.now.limits
        run.now.input.now.words.items course.old }
    ensures ready { OnOk result (IsUnderWay (source_of run.now.checked.now) run.now.limits
        run.now.input.now.words.items MOST_COST course.new) }
    ensures sure { OnOk result (course.new.passed ≤ surely_in watching) }
    ensures holds { Holds (source_of run.now.checked.now) run.now.limits
        run.now.input.now.words.items course.new }
{
    let most = surely(watching);
    if !course.broken && course.passed > most {
        rewind(run, course, most);
    }
    if !course.broken && course.passed <= most {
        return Ok(());
    }
    *course = begin(run)?;
    Ok(())
}

/// Goes on to the trace point that the watch looks for, or back to before it if the run has gone
/// too far. The only error is that memory ran out, or that the run costs more than 2 ^ 64.
pub fn run_to<'a>(run: &Run<'a>, course: &mut Course<'a>, watching: Watching) -> Result<Ended, Lack>
    requires run { IsValidRun (source_of run.now.checked.now) run.now.limits
        run.now.input.now.words.items }
    requires holds { Holds (source_of run.now.checked.now) run.now.limits
        run.now.input.now.words.items course.old }
    ensures ended { IfOk result (λ ended. IsEnded ended (heap_of course.new) watching
        (trail (source_of run.now.checked.now) run.now.limits run.now.input.now.words.items
        MOST_COST)) }
    ensures holds { Holds (source_of run.now.checked.now) run.now.limits
        run.now.input.now.words.items course.new }
{
    make_ready(run, course, watching)?;
    go_on(run, course, watching)
}

// Goes on to the trace point that the watch looks for. A watch passes all trace points that are
// passed.
fn go_on<'a>(run: &Run<'a>, course: &mut Course<'a>, watching: Watching) -> Result<Ended, Lack>
    requires run { IsValidRun (source_of run.now.checked.now) run.now.limits
        run.now.input.now.words.items }
    requires under_way { IsUnderWay (source_of run.now.checked.now) run.now.limits
        run.now.input.now.words.items MOST_COST course.old }
    requires sure { course.old.passed ≤ surely_in watching }
    ensures ended { IfOk result (λ ended. IsEnded ended (heap_of course.new) watching
        (trail (source_of run.now.checked.now) run.now.limits run.now.input.now.words.items
        MOST_COST)) }
    ensures holds { Holds (source_of run.now.checked.now) run.now.limits
        run.now.input.now.words.items course.new }
{
    run.checked.program();
    let mut watch = ahead(watching, course.passed);
    while !course.execution.is_over() {
        let here = course.execution.place();
        if wanted(watch, here) {
            return arrive(run.alloc, course, watch);
        }
        watch = behind(watch, here);
        match step(course, here) {
            Ok(()) => {}
            Err(stop) => return broken(stop, watch),
        }
    }
    Ok(Ended::Over { watching: watch })
}

// The end at the trace point of a run. One that has no fuel left is refused as
// `Full`.
fn arrive(alloc: Global, course: &Course, watching: Watching) -> Result<Ended, Lack>
    requires { wanted_at watching (next_place (config_at course.now.execution).rest) ≡ true }
    ensures { IfOk result (λ ended. HasStopped (config_at course.now.execution)
        (heap_of course.now) watching course.now.fuel ended) }
{
    if course.fuel == 0 {
        return Err(Lack::Full);
    }
    match course.execution.place() {
        None => unreachable!(),
        Some(place) => {
            let arrival = Arrival {
                place,
                params: course.execution.params(),
                object: course.execution.object(),
                depth: course.execution.depth(),
                variables: course.execution.variables(alloc)?,
            };
            Ok(Ended::At { arrival, watching })
        }
    }
}

// How a run ended that stopped before its end.
fn broken(stop: Stop, watching: Watching) -> Result<Ended, Lack>
    ensures { IfOk result (λ ended. IsStopped stop watching ended) }
{
    match stop {
        Stop::Fault(code) => Ok(Ended::Fault { code, watching }),
        Stop::More => Err(Lack::Full),
        Stop::Lacks(lack) => Err(lack),
    }
}
