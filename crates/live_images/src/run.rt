// Runs that are held open.
ghost use Rattle.std.specs.Prelude.{◌≡◌, None};
ghost use Rattle.live_talks.specs.Limits.{held_run};
ghost use Rattle.live_images.specs.Sessions.{held_in};

use image_searches::Debugger;

/// The run of an image that is held open, and the most moves that a request makes, if there is a
/// limit.
#[derive(Drop)]
pub struct Run {
    pub(crate) debugger: Debugger,
    pub(crate) limit: Option<u64>,
}

impl Run {
    /// The run of a debugger, without a limit.
    pub fn new(debugger: Debugger) -> Run
        ensures { held_in result ≡ held_run debugger None }
    {
        Run {
            debugger,
            limit: None,
        }
    }
}
