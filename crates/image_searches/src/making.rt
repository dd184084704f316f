// Moves that are asked for.
ghost use Rattle.std.specs.Prelude.{◌≡◌, IfOk, OnErr, string_bytes, map};
ghost use Rattle.image_searches.specs.Steps.{ImageMovesSome};
ghost use Rattle.image_searches.specs.Makings.{image_made};
ghost use Rattle.live_requests.specs.Asks.{way_of};

use crate::lists::points;
use crate::moves::{Moved, way};
use crate::searches::seek;
use live_requests::{Ask, Debugger, Goal, NoMemory, Steps};
use std::alloc::Global;
use std::sync::ledger::Ledger;

/// Makes moves that are asked for. If memory runs out, some moves were made.
pub fn make<L: Ledger>(
    alloc: Global,
    debugger: &mut Debugger,
    steps: &mut Steps<L>,
    ask: Ask,
    arguments: &[&[u8]],
) -> Result<Moved, NoMemory>
    ensures found { IfOk result (λ moved. image_made ask (map (λ word. word.now) arguments.now)
        debugger.old ≡ record {
          position = debugger.new;
          text = string_bytes moved.text;
          how = moved.how;
        }) }
    ensures lost { OnErr result (ImageMovesSome (way_of ask.back) ask.most debugger.old debugger.new) }
{
    match ask.goal {
        Goal::Points => points(alloc, debugger, steps, way(ask.back), ask.most),
        Goal::Any => seek(alloc, debugger, steps, ask, arguments),
        Goal::Depth(_depth) => seek(alloc, debugger, steps, ask, arguments),
        Goal::Change => seek(alloc, debugger, steps, ask, arguments),
        Goal::Cell(_at) => seek(alloc, debugger, steps, ask, arguments),
    }
}
