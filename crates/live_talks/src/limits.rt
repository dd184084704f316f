// How a request ends that a limit cuts.
ghost use Rattle.std.specs.Prelude.{◌≡◌};
ghost use Rattle.live_talks.specs.Limits.{end_cut as cut_end, more_for_done as more_for_done_end};

use crate::ends::End;

fn more_for_done(end: End) -> End
    ensures { result ≡ more_for_done_end end }
{
    match end {
        End::Done => End::More,
        _ => end,
    }
}

/// How a request ends that would end so without the limit. `cut` says that it asks for more moves
/// than the limit allows, and `all_made` that all that it allows were made.
pub fn end_cut(cut: bool, all_made: bool, end: End) -> End
    ensures { result ≡ cut_end cut all_made end }
{
    if cut && all_made {
        more_for_done(end)
    } else {
        end
    }
}
