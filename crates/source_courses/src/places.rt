// Where the positions of a run are.
ghost use Rattle.std.specs.Prelude.{◌≡◌, IfOk};
ghost use Rattle.source_execution.specs.rpp_tree.Views.{source_of};
ghost use Rattle.source_execution.specs.meaning_points.Trail.{trail};
ghost use Rattle.source_courses.specs.declared.running.TheConstants.{MOST_COST};
ghost use Rattle.source_courses.specs.Walks.{stand_at};
ghost use Rattle.source_courses.specs.Valid.{IsValidRun};
ghost use Rattle.source_courses.specs.Courses.{Holds, heap_of};
ghost use Rattle.source_courses.specs.Placed.{stand_of};

use crate::moves::left_in;
use crate::running::{Arrival, Course, Ended, Run, run_to};
use crate::watching::Watching;
use source_execution::Lack;

/// The position of a run: at a trace point, or at its end.
#[derive(Drop)]
pub enum Place {
    Point { arrival: Arrival },
    End,
}

/// Where a position is. A position that the run does not have is refused as `Full`.
pub fn place_at<'a>(run: &Run<'a>, course: &mut Course<'a>, position: u64) -> Result<Place, Lack>
    requires run { IsValidRun (source_of run.now.checked.now) run.now.limits
        run.now.input.now.words.items }
    requires holds { Holds (source_of run.now.checked.now) run.now.limits
        run.now.input.now.words.items course.old }
    ensures stands { IfOk result (λ place. stand_of place (heap_of course.new)
        ≡ stand_at (trail (source_of run.now.checked.now) run.now.limits
        run.now.input.now.words.items MOST_COST) position) }
    ensures holds { Holds (source_of run.now.checked.now) run.now.limits
        run.now.input.now.words.items course.new }
{
    let wanted = Watching::First {
        place: None,
        skip: 0,
        left: position,
    };
    match run_to(run, course, wanted)? {
        Ended::At { arrival, .. } => Ok(Place::Point { arrival }),
        Ended::Over { watching } => {
            if left_in(watching) == 0 {
                Ok(Place::End)
            } else {
                Err(Lack::Full)
            }
        }
        Ended::Fault { .. } => Err(Lack::Full),
    }
}
