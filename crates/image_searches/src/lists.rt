// Lists of positions.
ghost use Rattle.std.specs.Prelude.{◌≡◌, IfOk, OnErr, string_bytes};
ghost use Rattle.image_searches.specs.Steps.{ImageMovesSome};
ghost use Rattle.image_searches.specs.Searches.{image_points as points_of};

use crate::moves::{Moved, Outcome, Step, go};
use live_requests::{Command, Debugger, NoMemory, Steps};
use std::alloc::Global;
use std::sync::ledger::Ledger;

/// The lines of the next positions, up to a move that leads nowhere. If memory runs out, some moves
/// were made.
pub(crate) fn points<L: Ledger>(
    alloc: Global,
    debugger: &mut Debugger,
    steps: &mut Steps<L>,
    way: Command,
    most: u64,
) -> Result<Moved, NoMemory>
    ensures found { IfOk result (λ moved. points_of way most debugger.old ≡ record {
      position = debugger.new;
      text = string_bytes moved.text;
      how = moved.how;
    }) }
    ensures lost { OnErr result (ImageMovesSome way most debugger.old debugger.new) }
{
    let mut text = String::new(alloc);
    for _ in 0..most {
        match go(alloc, debugger, steps, way, &mut text) {
            Step::Gone => {}
            Step::Stuck => {
                return Ok(Moved {
                    text,
                    how: Outcome::Stopped,
                });
            }
            Step::Lost { lack } => return Err(lack),
        }
    }
    Ok(Moved {
        text,
        how: Outcome::Made,
    })
}
