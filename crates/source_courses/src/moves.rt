// Moves along the positions of a run.
ghost use Rattle.std.specs.Prelude.{◌≡◌, ◌≤◌, ◌+◌, min, Some, IfOk};
ghost use Rattle.source_execution.specs.rpp_tree.Views.{source_of};
ghost use Rattle.source_execution.specs.meaning_points.Trail.{trail};
ghost use Rattle.source_courses.specs.declared.running.TheConstants.{MOST_COST};
ghost use Rattle.source_courses.specs.Walks.{forward as forward_in, backward as backward_in};
ghost use Rattle.source_courses.specs.Valid.{IsValidRun};
ghost use Rattle.source_courses.specs.Courses.{Holds};
ghost use Rattle.source_courses.specs.Ended.{watching_of, left_of, latest_of, reached_by, back_by as back_at, back_to as back_to_latest};

use crate::running::{Course, Ended, Run, run_to};
use crate::watching::Watching;
use source_execution::Lack;

/// The last position that a debugger moves to.
pub const LAST_POSITION: u64 = pisa_scripts::LAST_POSITION;

/// How the moves of a command ended.
#[derive(Clone, Copy, PartialEq, Eq, Debug)]
pub enum Ending {
    /// With the last requested move, at the end or at the last position.
    Made,
    /// At position 0, if one more move back was requested.
    Start,
    /// At the last trace point before a fault, if one more move was requested.
    Faulted(u32),
}

/// Where moves lead, and how they ended.
#[derive(Clone, Copy, PartialEq, Eq, Debug)]
pub struct Walk {
    pub position: u64,
    pub ending: Ending,
}

// The requested position.
fn goal_of(from: u64, most: u64) -> u64
    ensures { result ≡ min (from + most) LAST_POSITION }
{
    from.saturating_add(most).min(LAST_POSITION)
}

/// How many trace points a watch had left to pass.
pub fn left_in(watching: Watching) -> u64
    ensures { result ≡ left_of watching }
{
    match watching {
        Watching::First { left, .. } => left,
        Watching::Latest { left, .. } => left,
    }
}

// How many it had left at the last one at its offset.
fn latest_in(watching: Watching) -> Option<u64>
    ensures { result ≡ latest_of watching }
{
    match watching {
        Watching::First { .. } => None,
        Watching::Latest { latest, .. } => latest,
    }
}

// The watch as the run left it.
fn watching_in(ended: Ended) -> Watching
    ensures { result ≡ watching_of ended }
{
    match ended {
        Ended::At { watching, .. } => watching,
        Ended::Over { watching, .. } => watching,
        Ended::Fault { watching, .. } => watching,
    }
}

// Where moves forward to a goal lead, by how the run ended.
fn reached(ended: &Ended, from: u64, goal: u64) -> Walk
    ensures { result ≡ reached_by ended.now from goal }
{
    match ended {
        Ended::At { watching, .. } => Walk {
            position: goal.saturating_sub(left_in(*watching)),
            ending: Ending::Made,
        },
        Ended::Over { watching, .. } => Walk {
            position: from.max(goal.saturating_sub(left_in(*watching))),
            ending: Ending::Made,
        },
        Ended::Fault { code, watching } => {
            if goal == from {
                Walk {
                    position: from,
                    ending: Ending::Made,
                }
            } else {
                Walk {
                    position: from.max(goal.saturating_sub(left_in(*watching)).saturating_sub(1)),
                    ending: Ending::Faulted(*code),
                }
            }
        }
    }
}

/// Where at most so many moves forward lead, up to the offset.
pub fn forward<'a>(
    run: &Run<'a>,
    course: &mut Course<'a>,
    place: Option<i64>,
    most: u64,
    from: u64,
) -> Result<Walk, Lack>
    requires run { IsValidRun (source_of run.now.checked.now) run.now.limits
        run.now.input.now.words.items }
    requires within { from ≤ LAST_POSITION }
    requires holds { Holds (source_of run.now.checked.now) run.now.limits
        run.now.input.now.words.items course.old }
    ensures walk { IfOk result (λ walk. forward_in
        (trail (source_of run.now.checked.now) run.now.limits run.now.input.now.words.items
        MOST_COST) place most from ≡ Some walk) }
    ensures within { IfOk result (λ walk. walk.position ≤ LAST_POSITION) }
    ensures holds { Holds (source_of run.now.checked.now) run.now.limits
        run.now.input.now.words.items course.new }
{
    let goal = goal_of(from, most);
    let ended = run_to(
        run,
        course,
        Watching::First {
            place,
            skip: from + 1,
            left: goal,
        },
    )?;
    Ok(reached(&ended, from, goal))
}

// Where at most so many moves back lead.
fn back_by(most: u64, from: u64) -> Walk
    ensures { result ≡ back_at most from }
{
    Walk {
        position: from.saturating_sub(most),
        ending: if from < most {
            Ending::Start
        } else {
            Ending::Made
        },
    }
}

// The same if the last trace point at an offset had so many before it, counted from where they
// begin.
fn back_to(latest: Option<u64>, most: u64, from: u64) -> Walk
    ensures { result ≡ back_to_latest latest most from }
{
    match latest {
        None => back_by(most, from),
        Some(left) => Walk {
            position: from.saturating_sub(left),
            ending: Ending::Made,
        },
    }
}

/// Where at most so many moves back lead, up to the offset.
pub fn backward<'a>(
    run: &Run<'a>,
    course: &mut Course<'a>,
    place: Option<i64>,
    most: u64,
    from: u64,
) -> Result<Walk, Lack>
    requires run { IsValidRun (source_of run.now.checked.now) run.now.limits
        run.now.input.now.words.items }
    requires within { from ≤ LAST_POSITION }
    requires holds { Holds (source_of run.now.checked.now) run.now.limits
        run.now.input.now.words.items course.old }
    ensures walk { IfOk result (λ walk. backward_in
        (trail (source_of run.now.checked.now) run.now.limits run.now.input.now.words.items
        MOST_COST) place most from ≡ walk) }
    ensures within { IfOk result (λ walk. walk.position ≤ LAST_POSITION) }
    ensures holds { Holds (source_of run.now.checked.now) run.now.limits
        run.now.input.now.words.items course.new }
{
    match place {
        None => Ok(back_by(most, from)),
        Some(place) => {
            let ended = run_to(
                run,
                course,
                Watching::Latest {
                    place,
                    skip: from.saturating_sub(most),
                    left: from,
                    latest: None,
                },
            )?;
            Ok(back_to(latest_in(watching_in(ended)), most, from))
        }
    }
}
