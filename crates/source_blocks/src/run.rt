// The position of a run, and its moves between blocks.
ghost use Rattle.std.specs.Prelude.{◌≡◌, ◌+◌, ◌<◌, ◌≤◌, ◌^◌, List, ◌∷◌, ◌++◌, [], suc, map, length, OnOk, OnErr, IfErr, MatchResult};
ghost use Rattle.source_steps.specs.meaning_machine.Machine.{past_it, inside};
ghost use Rattle.source_steps.specs.meaning_machine.Turned.{turn as turned_round};
ghost use Rattle.source_steps.specs.StateView.{names_of};
ghost use Rattle.source_blocks.specs.Blocks.{statement_count};
ghost use Rattle.source_blocks.specs.Tasks.{task_of};
ghost use Rattle.source_blocks.specs.Opens.{open_of, part_of, IsCaller, IsOpen};
ghost use Rattle.source_blocks.specs.Turns.{loop_part, loop_block, gone_over, Changed};
ghost use Rattle.source_blocks.specs.Runs.{IsSound, config_of, state_in, here_in, rest_in, leaving};

use crate::frames::{Frame, Part, turn_frames};
use crate::task::{Task, count_in, undone_task};
use source_steps::tree::Var;
use source_steps::{Heap, Lack, Scope, Setting, Stop, Value};

/// A run: the method that is open last with its variables, the heap, the block that runs there, how
/// many statements of it are past, and what is open around it, the innermost last.
#[derive(Drop)]
pub struct Run<'a> {
    pub setting: Setting<'a>,
    pub params: &'a [Var],
    pub locals: Vec<&'a [u8]>,
    /// The marks of the names of locals and parameters.
    pub marks: u64,
    pub values: Vec<Value>,
    pub heap: Heap,
    pub task: Task<'a>,
    pub at: usize,
    pub frames: Vec<Frame<'a>>,
}

/// The variables of the open method by their names.
#[inline(always)]
pub fn scope_of<'a, 'b>(locals: &'b Vec<&'a [u8]>, params: &'b [Var], marks: u64) -> Scope<'b>
    ensures { (names_of result ≡ map (λ own. own.now) locals.now.items
        ++ map (λ var. var.name.text) params.now) × (result.marks ≡ marks) }
{
    Scope {
        locals,
        params,
        marks,
    }
}

/// The statement that began is past.
pub fn pass(run: &mut Run)
    requires within { run.old.at < statement_count (task_of run.old.task) }
    requires sound { IsSound run.old }
    ensures passed { config_of run.new
        ≡ past_it (config_of run.old) (here_in run.old) (rest_in run.old) (state_in run.old) }
    ensures sound { IsSound run.new }
    ensures opens { length run.new.frames.items ≡ length run.old.frames.items }
    ensures setting { run.new.setting ≡ run.old.setting }
{
    run.at += 1;
}

/// A block begins in a part of the statement that began.
pub fn open_block<'a>(run: &mut Run<'a>, part: Part<'a>, task: Task<'a>) -> Result<(), Stop>
    requires sound { IsSound run.old }
    requires within { run.old.at < statement_count (task_of run.old.task) }
    requires part { IsCaller part }
    ensures opened { MatchResult result (λ u. config_of run.new
        ≡ inside (config_of run.old) (here_in run.old) (rest_in run.old) (part_of part.entry)
        (task_of task.entry) (state_in run.old)) (λ why. why ≡ Stop.Lacks Lack.NoMemory) }
    ensures opens { OnOk result (length run.new.frames.items ≡ 1 + length run.old.frames.items) }
    ensures sound { OnOk result (IsSound run.new) }
    ensures setting { run.new.setting ≡ run.old.setting }
{
    run.frames.push(Frame {
        task: run.task,
        at: run.at,
        part,
    })?;
    run.task = task;
    run.at = 0;
    Ok(())
}

/// The innermost open statement is past.
pub fn close_block(run: &mut Run)
    requires sound { IsSound run.old }
    requires opens { 0 < length run.old.frames.items }
    ensures closed { config_of run.new ≡ leaving (config_of run.old) (config_of run.old).around }
    ensures opens { 1 + length run.new.frames.items ≡ length run.old.frames.items }
    ensures sound { IsSound run.new }
    ensures setting { run.new.setting ≡ run.old.setting }
{
    match run.frames.pop() {
        None => {}
        Some(frame) => {
            run.task = frame.task;
            run.at = frame.at + 1;
        }
    }
}

/// A loop goes on in the second part of its iteration if `again` holds, else in the first part of the
/// next one. It returns the block of that part, or nothing if it runs there already.
#[inline(always)]
fn change_part<'a>(part: &mut Part<'a>, again: bool) -> Task<'a>
    ensures part { part_of part.new ≡ loop_part again (part_of part.old) }
    ensures task { task_of result ≡ loop_block again (part_of part.old) }
    ensures caller { IsCaller part.old → IsCaller part.new }
{
    match part {
        Part::First(turns) => {
            if !again {
                return Task::Nothing;
            }
            let own = *turns;
            *part = Part::Again(own);
            Task::Text {
                block: own.again,
                back: own.back,
            }
        }
        Part::Again(turns) => {
            if again {
                return Task::Nothing;
            }
            let own = *turns;
            *part = Part::First(own);
            Task::Text {
                block: own.first,
                back: own.back,
            }
        }
        Part::Chosen { .. } => Task::Nothing,
        Part::Holding(_local) => Task::Nothing,
        Part::Calling(_caller) => Task::Nothing,
    }
}

#[inline(always)]
fn change_frame<'a>(frame: &mut Frame<'a>, again: bool) -> Task<'a>
    ensures part { open_of frame.new ≡ record (open_of frame.old) {
      part = loop_part again (part_of frame.old.part);
    } }
    ensures task { task_of result ≡ loop_block again (part_of frame.old.part) }
    ensures open { IsOpen frame.old → IsOpen frame.new }
{
    change_part(&mut frame.part, again)
}

/// The last of these open statements goes on in a part of its iteration, if it is a loop.
#[inline(always)]
fn change_last<'a>(frames: &mut Vec<Frame<'a>>, last: usize, again: bool) -> Task<'a>
    requires { length frames.old.items ≡ suc last }
    ensures changed { Changed again frames.old.items frames.new.items (task_of result) }
    ensures many { length frames.new.items ≡ length frames.old.items }
{
    change_frame(&mut frames[last], again)
}

/// The innermost open statement goes on in the second part of its iteration if `again` holds, else in
/// the first part of the next one.
#[inline(always)]
pub fn go_over(run: &mut Run, again: bool)
    requires sound { IsSound run.old }
    ensures turned { config_of run.new ≡ gone_over again (config_of run.old) (config_of run.old).around }
    ensures sound { IsSound run.new }
    ensures opens { length run.new.frames.items ≡ length run.old.frames.items }
    ensures setting { run.new.setting ≡ run.old.setting }
{
    let count = run.frames.len();
    if 0 < count {
        run.task = change_last(&mut run.frames, count - 1, again);
        run.at = 0;
    }
}

/// The run turns round: what is past is to come, undone.
pub fn turn(run: &mut Run)
    requires sound { IsSound run.old }
    ensures turned { config_of run.new ≡ turned_round (config_of run.old) }
    ensures sound { IsSound run.new }
    ensures setting { run.new.setting ≡ run.old.setting }
{
    run.at = count_in(&run.task) - run.at;
    run.task = undone_task(&run.task);
    turn_frames(&mut run.frames);
}
