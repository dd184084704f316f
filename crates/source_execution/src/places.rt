// The place of the statement that begins.
ghost use Rattle.std.specs.Prelude.{◌≡◌};
ghost use Rattle.source_checks.specs.source_blocks.Runs.{config_of};
ghost use Rattle.source_execution.specs.Standing.{next_place};

use source_checks::{Run, place_at};

/// The offset of the statement that begins in a run, if one does.
#[inline(always)]
pub fn run_place(run: &Run) -> Option<u32>
    ensures { result ≡ next_place (config_of run.now).rest }
{
    match place_at(&run.task, run.at) {
        None => None,
        Some(place) => Some(place),
    }
}
