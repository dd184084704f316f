// A step of a run: a statement of the block that runs begins, or the block ends.
ghost use Rattle.std.specs.Prelude.{◌≡◌, ◌+◌, ◌*◌, ◌<◌, ◌≤◌, OnOk, length, true, IfErr};
ghost use Rattle.source_blocks.specs.rpp_tree.Views.{block_of, statement_of};
ghost use Rattle.source_blocks.specs.roopl_semantics.Execution.{in_direction};
ghost use Rattle.source_blocks.specs.meaning_machine.Machine.{begun};
ghost use Rattle.source_blocks.specs.source_steps.Ends.{turned};
ghost use Rattle.source_blocks.specs.source_steps.Metered.{MeteredGives, metered, OnFault};
ghost use Rattle.source_blocks.specs.source_steps.StateView.{setting_of};
ghost use Rattle.source_blocks.specs.Blocks.{statement_count};
ghost use Rattle.source_blocks.specs.Tasks.{task_of, statement_line};
ghost use Rattle.source_blocks.specs.Requests.{is_request as asks};
ghost use Rattle.source_blocks.specs.Runs.{IsSound, IsSimple, RunStays, config_of, here_in, rest_in};
ghost use Rattle.source_statements.specs.Steps.{StepFalls, begun_in, step_in, MayStopAt};
ghost use Rattle.source_blocks.specs.Stops.{MayStop};

use crate::begins::{begin, begin_backward, begin_forward, begin_plain};
use crate::ends::end;
use source_blocks::tree::Block;
use source_blocks::{
    Line, Run, Stmt, Stop, Task, is_request, line_at, pass, spend, statement_in, take_line_back,
};

/// A `new` or `delete` begins in a reversed run, and is past.
fn begin_request(run: &mut Run, fuel: &mut u64, line: &Line) -> Result<(), Stop>
    requires sound { IsSound run.old }
    requires within { run.old.at < statement_count (task_of run.old.task) }
    requires here { here_in run.old ≡ statement_line line.now }
    requires asks { asks (statement_line line.now) ≡ true }
    ensures gives { MeteredGives (λ u. config_of run.new) result fuel.new
        (metered fuel.old (begun_in true (setting_of run.old.setting) (config_of run.old)
        (here_in run.old) (rest_in run.old))) }
    ensures sound { OnOk result (IsSound run.new) }
    ensures opens { OnOk result (length run.new.frames.items ≤ 1 + length run.old.frames.items) }
    ensures setting { setting_of run.new.setting ≡ setting_of run.old.setting }
    ensures stays { OnFault result (run.new ≡ run.old) }
    ensures less { fuel.new ≤ fuel.old }
    ensures stops { IfErr result (λ why. MayStop (statement_line line.now) why) }
{
    match take_line_back(run, fuel, line) {
        Err(why) => Err(why),
        Ok(()) => {
            pass(run);
            Ok(())
        }
    }
}

/// A statement of the block that runs begins, whether the run is reversed or not.
#[inline(never)]
fn begin_line<'a>(
    run: &mut Run<'a>,
    fuel: &mut u64,
    line: &Line<'a>,
    back: bool,
) -> Result<(), Stop>
    requires sound { IsSound run.old }
    requires within { run.old.at < statement_count (task_of run.old.task) }
    requires here { here_in run.old ≡ statement_line line.now }
    ensures gives { MeteredGives (λ u. config_of run.new) result fuel.new
        (metered fuel.old (begun_in back (setting_of run.old.setting) (config_of run.old)
        (here_in run.old) (rest_in run.old))) }
    ensures sound { OnOk result (IsSound run.new) }
    ensures opens { OnOk result (length run.new.frames.items ≤ 1 + length run.old.frames.items) }
    ensures setting { setting_of run.new.setting ≡ setting_of run.old.setting }
    ensures stays { OnFault result (run.new ≡ run.old) }
    ensures less { fuel.new ≤ fuel.old }
    ensures stops { IfErr result (λ why. MayStop (statement_line line.now) why) }
{
    if !back {
        return begin(run, fuel, line);
    }
    if is_request(line) {
        return begin_request(run, fuel, line);
    }
    begin(run, fuel, line)
}

/// Whether a statement of the text holds no block and is no call, as it stands and undone.
#[inline(always)]
fn is_simple(s: &Stmt) -> bool
    ensures forward { result ≡ true → IsSimple (statement_of s.now) }
    ensures backward { result ≡ true → IsSimple (turned true (statement_of s.now)) }
{
    match s {
        Stmt::Update { .. } => true,
        Stmt::Swap { .. } => true,
        Stmt::New { .. } => true,
        Stmt::Delete { .. } => true,
        Stmt::Copy { .. } => true,
        Stmt::Uncopy { .. } => true,
        Stmt::Skip { .. } => true,
        Stmt::If { .. } => false,
        Stmt::From { .. } => false,
        Stmt::Construct { .. } => false,
        Stmt::Local { .. } => false,
        Stmt::Call { .. } => false,
    }
}

/// A statement of the text begins, as it stands or undone.
#[inline(always)]
fn begin_text<'a>(run: &mut Run<'a>, fuel: &mut u64, s: &'a Stmt, undone: bool) -> Result<(), Stop>
    requires sound { IsSound run.old }
    requires within { run.old.at < statement_count (task_of run.old.task) }
    requires here { here_in run.old ≡ turned undone (statement_of s.now) }
    ensures gives { MeteredGives (λ u. config_of run.new) result fuel.new
        (metered fuel.old (begun (setting_of run.old.setting) (config_of run.old)
        (here_in run.old) (rest_in run.old))) }
    ensures sound { OnOk result (IsSound run.new) }
    ensures opens { OnOk result (length run.new.frames.items ≤ 1 + length run.old.frames.items) }
    ensures setting { setting_of run.new.setting ≡ setting_of run.old.setting }
    ensures stays { OnFault result (run.new ≡ run.old) }
    ensures less { fuel.new ≤ fuel.old }
    ensures stops { IfErr result (λ why. MayStop (turned undone (statement_of s.now)) why) }
{
    if undone {
        if is_simple(s) {
            return begin_plain(run, fuel, s, true);
        }
        return begin_backward(run, fuel, s);
    }
    if is_simple(s) {
        return begin_plain(run, fuel, s, false);
    }
    begin_forward(run, fuel, s)
}

/// A statement of the text begins, whether the run is reversed or not.
#[inline(always)]
fn begin_written<'a>(
    run: &mut Run<'a>,
    fuel: &mut u64,
    s: &'a Stmt,
    undone: bool,
    back: bool,
) -> Result<(), Stop>
    requires sound { IsSound run.old }
    requires within { run.old.at < statement_count (task_of run.old.task) }
    requires here { here_in run.old ≡ turned undone (statement_of s.now) }
    ensures gives { MeteredGives (λ u. config_of run.new) result fuel.new
        (metered fuel.old (begun_in back (setting_of run.old.setting) (config_of run.old)
        (here_in run.old) (rest_in run.old))) }
    ensures sound { OnOk result (IsSound run.new) }
    ensures opens { OnOk result (length run.new.frames.items ≤ 1 + length run.old.frames.items) }
    ensures setting { setting_of run.new.setting ≡ setting_of run.old.setting }
    ensures stays { OnFault result (run.new ≡ run.old) }
    ensures less { fuel.new ≤ fuel.old }
    ensures stops { IfErr result (λ why. MayStop (turned undone (statement_of s.now)) why) }
{
    if back {
        let line = Line::Text {
            stmt: s,
            back: undone,
        };
        return begin_line(run, fuel, &line, back);
    }
    begin_text(run, fuel, s, undone)
}

/// A step in a block of the text.
#[inline(always)]
fn step_text<'a>(
    run: &mut Run<'a>,
    fuel: &mut u64,
    block: &'a Block,
    undone: bool,
    back: bool,
) -> Result<(), Stop>
    requires sound { IsSound run.old }
    requires text { task_of run.old.task ≡ in_direction undone (block_of block.now) }
    ensures gives { MeteredGives (λ u. config_of run.new) result fuel.new
        (metered fuel.old (step_in back (setting_of run.old.setting) (config_of run.old))) }
    ensures sound { OnOk result (IsSound run.new) }
    ensures falls { OnOk result (StepFalls (config_of run.old)
        (2 * fuel.new + length run.new.frames.items)
        (2 * fuel.old + length run.old.frames.items)) }
    ensures setting { setting_of run.new.setting ≡ setting_of run.old.setting }
    ensures stays { OnFault result (RunStays run.old run.new) }
    ensures less { fuel.new ≤ fuel.old }
    ensures stops { IfErr result (λ why. MayStopAt (config_of run.old).rest why) }
{
    match statement_in(block, undone, run.at) {
        None => end(run, fuel),
        Some(s) => match spend(fuel, 1) {
            Err(why) => Err(why),
            Ok(()) => begin_written(run, fuel, s, undone, back),
        },
    }
}

/// A step in any block that runs.
#[inline(never)]
fn step_line<'a>(run: &mut Run<'a>, fuel: &mut u64, back: bool) -> Result<(), Stop>
    requires sound { IsSound run.old }
    ensures gives { MeteredGives (λ u. config_of run.new) result fuel.new
        (metered fuel.old (step_in back (setting_of run.old.setting) (config_of run.old))) }
    ensures sound { OnOk result (IsSound run.new) }
    ensures falls { OnOk result (StepFalls (config_of run.old)
        (2 * fuel.new + length run.new.frames.items)
        (2 * fuel.old + length run.old.frames.items)) }
    ensures setting { setting_of run.new.setting ≡ setting_of run.old.setting }
    ensures stays { OnFault result (RunStays run.old run.new) }
    ensures less { fuel.new ≤ fuel.old }
    ensures stops { IfErr result (λ why. MayStopAt (config_of run.old).rest why) }
{
    match line_at(&run.task, run.at) {
        None => end(run, fuel),
        Some(line) => {
            match spend(fuel, 1) {
                Err(why) => Err(why),
                Ok(()) => begin_line(run, fuel, &line, back),
            }
        }
    }
}

/// A step of a run, reversed or not.
#[inline(always)]
pub fn step<'a>(run: &mut Run<'a>, fuel: &mut u64, back: bool) -> Result<(), Stop>
    requires sound { IsSound run.old }
    ensures gives { MeteredGives (λ u. config_of run.new) result fuel.new
        (metered fuel.old (step_in back (setting_of run.old.setting) (config_of run.old))) }
    ensures sound { OnOk result (IsSound run.new) }
    ensures falls { OnOk result (StepFalls (config_of run.old)
        (2 * fuel.new + length run.new.frames.items)
        (2 * fuel.old + length run.old.frames.items)) }
    ensures setting { setting_of run.new.setting ≡ setting_of run.old.setting }
    ensures stays { OnFault result (RunStays run.old run.new) }
    ensures less { fuel.new ≤ fuel.old }
    ensures stops { IfErr result (λ why. MayStopAt (config_of run.old).rest why) }
{
    match run.task {
        Task::Text {
            block,
            back: undone,
        } => step_text(run, fuel, block, undone, back),
        _ => step_line(run, fuel, back),
    }
}
