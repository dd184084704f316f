// What commands print at a position.
ghost use Rattle.std.specs.Prelude.{◌≡◌, ◌++◌, [], Some, map, IfOk, OnOk, string_bytes};
ghost use Rattle.source_courses.specs.rpp_tree.Views.{source_of};
ghost use Rattle.source_lines.specs.meaning_points.Trail.{trail};
ghost use Rattle.source_courses.specs.declared.running.TheConstants.{MOST_COST};
ghost use Rattle.source_courses.specs.Walks.{stand_at};
ghost use Rattle.source_debugger.specs.Shown.{source_ending_shown, line_at, regs_at, cells_shown_at};
ghost use Rattle.source_lines.specs.Named.{fields_named};
ghost use Rattle.source_debugger.specs.Named.{frame_named};
ghost use Rattle.source_courses.specs.class_rules.Classes.{class_fields};
ghost use Rattle.source_courses.specs.roopl_semantics.Store.{class_of_head, object_at};
ghost use Rattle.source_courses.specs.source_store.ValueView.{values_of};
ghost use Rattle.source_courses.specs.source_execution.Variables.{binding_of};
ghost use Rattle.source_debugger.specs.Standing.{IsValidRun};
ghost use Rattle.source_courses.specs.source_store.HeapView.{Kept};
ghost use Rattle.source_courses.specs.Courses.{Holds};
ghost use Rattle.source_courses.specs.Placed.{stand_of};

use crate::lines::add_frame;
use source_courses::{Course, Ending, Place, Run, Stop, Variable, Walk, add_stop, place_at};
use source_lines::{Checked, Heap, Lack, Value, add_class_fields, objects_text};
use std::alloc::{AllocError, Global};

// The space for a text of a few lines.
const FEW_BYTES: usize = 64;

// How moves ended, with the line's end.
fn add_ending(text: &mut String, ending: Ending) -> Result<(), AllocError>
    ensures { OnOk result (string_bytes text.new ≡ string_bytes text.old ++ source_ending_shown ending) }
{
    match ending {
        Ending::Made => text.push_str("\n"),
        Ending::Start => text.push_str(" start\n"),
        Ending::Faulted(code) => {
            text.push_str(" ")?;
            add_stop(text, Stop::Trap(code))
        }
    }
}

// The line on where moves led.
fn line_text(alloc: Global, walk: Walk, place: &Place) -> Result<String, AllocError>
    ensures { IfOk result (λ text. (heap : Kept)
        → line_at walk.position (stand_of place.now heap) walk.ending ≡ Some (string_bytes text)) }
{
    let mut text = String::with_capacity(alloc, FEW_BYTES)?;
    let position = walk.position;
    match place {
        Place::Point { arrival } => {
            let at = arrival.place;
            let depth = arrival.depth;
            write!(text, "at {position} place {at} depth {depth}")?;
        }
        Place::End => write!(text, "at {position} end")?,
    }
    add_ending(&mut text, walk.ending)?;
    Ok(text)
}

/// The line on where moves led.
pub(crate) fn walk_text<'a>(
    run: &Run<'a>,
    course: &mut Course<'a>,
    walk: Walk,
) -> Result<String, Lack>
    requires run { IsValidRun (source_of run.now.checked.now) run.now.limits
        run.now.input.now.words.items }
    requires holds { Holds (source_of run.now.checked.now) run.now.limits
        run.now.input.now.words.items course.old }
    ensures told { IfOk result (λ text. line_at walk.position
        (stand_at (trail (source_of run.now.checked.now) run.now.limits
        run.now.input.now.words.items MOST_COST) walk.position) walk.ending
        ≡ Some (string_bytes text)) }
    ensures holds { Holds (source_of run.now.checked.now) run.now.limits
        run.now.input.now.words.items course.new }
{
    let place = place_at(run, course, walk.position)?;
    Ok(line_text(run.alloc, walk, &place)?)
}

/// The lines of the fields of an object, and of the variables of a method.
pub(crate) fn add_state(
    text: &mut String,
    checked: &Checked,
    heap: &Heap,
    object: u32,
    params: usize,
    variables: &[Variable],
) -> Result<(), Lack>
    ensures { OnOk result (string_bytes text.new
        ≡ string_bytes text.old
        ++ (fields_named [] (class_fields (source_of checked.now)
        (class_of_head (object_at heap.now.store object).head))
        (object_at heap.now.store object).cells
        ++ frame_named params (map binding_of variables.now))) }
{
    add_class_fields(
        text,
        "",
        checked,
        heap.class_of(object),
        cells_of(heap, object),
    )?;
    add_frame(text, params, variables)
}

// The fields or elements of an object or array.
fn cells_of(heap: &Heap, name: u32) -> &[Value]
    ensures { values_of result.now ≡ (object_at heap.now.store name).cells }
{
    match heap.object(name) {
        None => &[],
        Some(object) => &object.cells,
    }
}

// The lines of fields and variables at an offset.
fn place_regs(alloc: Global, checked: &Checked, place: &Place, heap: &Heap) -> Result<String, Lack>
    ensures { IfOk result (λ text. regs_at (source_of checked.now) (stand_of place.now heap.now)
        ≡ Some (string_bytes text)) }
{
    let mut text = String::with_capacity(alloc, FEW_BYTES)?;
    match place {
        Place::Point { arrival } => add_state(
            &mut text,
            checked,
            heap,
            arrival.object,
            arrival.params,
            &arrival.variables,
        )?,
        Place::End => add_state(&mut text, checked, heap, 1, 0, &[])?,
    }
    Ok(text)
}

/// The lines of fields and variables at a position.
pub(crate) fn regs_text<'a>(
    run: &Run<'a>,
    course: &mut Course<'a>,
    position: u64,
) -> Result<String, Lack>
    requires run { IsValidRun (source_of run.now.checked.now) run.now.limits
        run.now.input.now.words.items }
    requires holds { Holds (source_of run.now.checked.now) run.now.limits
        run.now.input.now.words.items course.old }
    ensures told { IfOk result (λ text. regs_at (source_of run.now.checked.now)
        (stand_at (trail (source_of run.now.checked.now) run.now.limits
        run.now.input.now.words.items MOST_COST) position) ≡ Some (string_bytes text)) }
    ensures holds { Holds (source_of run.now.checked.now) run.now.limits
        run.now.input.now.words.items course.new }
{
    let place = place_at(run, course, position)?;
    place_regs(run.alloc, run.checked, &place, course.execution.heap())
}

// The lines of objects and arrays at an offset.
fn place_cells(
    alloc: Global,
    checked: &Checked,
    place: &Place,
    heap: &Heap,
    from: u32,
    count: u32,
) -> Result<String, Lack>
    ensures { IfOk result (λ text. cells_shown_at (source_of checked.now) from count
        (stand_of place.now heap.now)
        ≡ Some (string_bytes text)) }
{
    match place {
        Place::Point { .. } => objects_text(alloc, checked, heap, from, count),
        Place::End => objects_text(alloc, checked, heap, from, count),
    }
}

/// The lines of the objects and arrays of so many names from one on, at a position.
pub(crate) fn cells_text<'a>(
    run: &Run<'a>,
    course: &mut Course<'a>,
    position: u64,
    from: u32,
    count: u32,
) -> Result<String, Lack>
    requires run { IsValidRun (source_of run.now.checked.now) run.now.limits
        run.now.input.now.words.items }
    requires holds { Holds (source_of run.now.checked.now) run.now.limits
        run.now.input.now.words.items course.old }
    ensures told { IfOk result (λ text. cells_shown_at (source_of run.now.checked.now) from count
        (stand_at (trail (source_of run.now.checked.now) run.now.limits
        run.now.input.now.words.items MOST_COST) position) ≡ Some (string_bytes text)) }
    ensures holds { Holds (source_of run.now.checked.now) run.now.limits
        run.now.input.now.words.items course.new }
{
    let place = place_at(run, course, position)?;
    place_cells(
        run.alloc,
        run.checked,
        &place,
        course.execution.heap(),
        from,
        count,
    )
}
