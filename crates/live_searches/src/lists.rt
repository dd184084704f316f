// Lists of positions.
ghost use Rattle.std.specs.Prelude.{◌≡◌, IfOk, string_bytes, Some};
ghost use Rattle.source_debugger.specs.meaning_points.rpp_tree.Views.{source_of};
ghost use Rattle.source_debugger.specs.Standing.{trail_of};
ghost use Rattle.live_searches.specs.Steps.{IsSameRun};
ghost use Rattle.live_searches.specs.Searches.{points as points_of};

use crate::moves::{Moved, Outcome, Step, go};
use live_requests::Command;
use source_debugger::{NoMemory, SourceDebugger};
use std::alloc::Global;

/// The lines of the next positions, up to a move that leads nowhere. If memory runs out, some moves
/// were made.
pub(crate) fn points(
    alloc: Global,
    debugger: &mut SourceDebugger<'_>,
    way: Command,
    most: u64,
) -> Result<Moved, NoMemory>
    ensures told { IfOk result (λ moved. points_of (source_of debugger.old.program)
        (trail_of debugger.old) way most debugger.old.position
        ≡ Some (record {
          position = debugger.new.position;
          text = string_bytes moved.text;
          how = moved.how;
        })) }
    ensures same { IsSameRun debugger.old debugger.new }
{
    let mut text = String::new(alloc);
    for _ in 0..most {
        match go(alloc, debugger, way, &mut text) {
            Step::Gone => {}
            Step::Stuck => {
                return Ok(Moved {
                    text,
                    how: Outcome::Stopped,
                });
            }
            Step::Lost { lack } => return Err(lack),
        }
    }
    Ok(Moved {
        text,
        how: Outcome::Made,
    })
}
