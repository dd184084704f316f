// What the block that runs ends in.
ghost use Rattle.std.specs.Prelude.{◌≡◌, map, reverse};
ghost use Rattle.source_steps.specs.roopl_semantics.Value.{Slot, read};
ghost use Rattle.source_steps.specs.source_store.ValueView.{value_of};
ghost use Rattle.source_blocks.specs.Opens.{open_of};
ghost use Rattle.source_blocks.specs.Runs.{IsSound, state_in};
ghost use Rattle.source_blocks.specs.Endings.{IsEnding};

use crate::frames::{Frame, Local, Loop, Part};
use crate::run::{Run, scope_of};
use source_steps::{Cell, Expr, Value, read_cell};

/// What a block ends in.
#[derive(Clone, Copy)]
pub enum Ending<'a> {
    /// The run.
    Over,
    /// A side of a choice.
    Chosen {
        side: bool,
        test: &'a Expr,
        after: &'a Expr,
    },
    /// The first part of a loop's iteration.
    First(Loop<'a>),
    /// The second.
    Again(Loop<'a>),
    /// A local variable.
    Holding(Local<'a>),
    /// A call.
    Calling,
}

/// What the block that runs ends in.
pub fn block_ending<'a>(frames: &Vec<Frame<'a>>) -> Ending<'a>
    ensures { IsEnding result (map open_of (reverse frames.now.items)) }
{
    match frames.last() {
        None => Ending::Over,
        Some(frame) => match &frame.part {
            Part::Chosen { side, test, after } => Ending::Chosen {
                side: *side,
                test,
                after,
            },
            Part::First(turns) => Ending::First(*turns),
            Part::Again(turns) => Ending::Again(*turns),
            Part::Holding(local) => Ending::Holding(*local),
            Part::Calling(_caller) => Ending::Calling,
        },
    }
}

/// The innermost variable.
pub fn innermost(run: &Run) -> Value
    requires sound { IsSound run.now }
    ensures { value_of result ≡ read (state_in run.now) (Slot 0) }
{
    let scope = scope_of(&run.locals, run.params, run.marks);
    read_cell(&run.setting, &scope, &run.heap, &run.values, Cell::Slot(0))
}
