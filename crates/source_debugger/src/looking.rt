// What is at a position.
ghost use Rattle.std.specs.Prelude.{◌≡◌, Some, IfOk};
ghost use Rattle.source_courses.specs.rpp_tree.Views.{source_of};
ghost use Rattle.source_lines.specs.meaning_points.Trail.{trail};
ghost use Rattle.source_courses.specs.source_store.HeapView.{Kept};
ghost use Rattle.source_courses.specs.declared.running.TheConstants.{MOST_COST};
ghost use Rattle.source_courses.specs.Walks.{stand_at};
ghost use Rattle.source_debugger.specs.Standing.{IsValidRun};
ghost use Rattle.source_courses.specs.Courses.{Holds};
ghost use Rattle.source_courses.specs.Placed.{stand_of};
ghost use Rattle.source_debugger.specs.Looks.{seen_of};

use source_courses::{Course, NoMemory, Place, Run, place_at};

/// What is at a position.
#[derive(Clone, Copy, PartialEq, Eq, Debug)]
pub enum Seen {
    /// A statement that begins: its offset, and the number of active calls.
    At { place: u32, depth: u32 },
    /// The end of the run.
    End,
}

// What is at a place.
fn seen_in(place: &Place) -> Seen
    ensures { (heap : Kept) → seen_of (stand_of place.now heap) ≡ Some result }
{
    match place {
        Place::Point { arrival } => Seen::At {
            place: arrival.place,
            depth: arrival.depth,
        },
        Place::End => Seen::End,
    }
}

/// What is at a position. One that the run does not have counts as `NoMemory`.
pub(crate) fn look_at<'a>(
    run: &Run<'a>,
    course: &mut Course<'a>,
    position: u64,
) -> Result<Seen, NoMemory>
    requires run { IsValidRun (source_of run.now.checked.now) run.now.limits
        run.now.input.now.words.items }
    requires holds { Holds (source_of run.now.checked.now) run.now.limits
        run.now.input.now.words.items course.old }
    ensures seen { IfOk result (λ seen. seen_of (stand_at (trail (source_of run.now.checked.now)
        run.now.limits run.now.input.now.words.items MOST_COST) position) ≡ Some seen) }
    ensures holds { Holds (source_of run.now.checked.now) run.now.limits
        run.now.input.now.words.items course.new }
{
    match place_at(run, course, position) {
        Ok(place) => Ok(seen_in(&place)),
        Err(lack) => Err(lack.as_no_memory()),
    }
}
