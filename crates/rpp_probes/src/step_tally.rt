// How many steps were made in each direction.
ghost use Rattle.std.specs.Prelude.{◌≡◌};
ghost use Rattle.rpp_probes.specs.Rules.{step_tally};

use crate::{Probe, StepAt};
use rpp_words::NoMemory;

/// Counts forward and backward steps. A count that is its last value stays there.
#[derive(Drop)]
pub struct StepTally {
    forward: u64,
    back: u64,
}

impl StepTally {
    /// No step so far.
    pub fn new() -> StepTally
        ensures { ⟦<StepTally as Probe>⟧.watch result ≡ step_tally 0 0 }
    {
        StepTally {
            forward: 0,
            back: 0,
        }
    }
}

// It never ends.
impl Probe for StepTally {
    ghost watch = { λ p. step_tally p.forward p.back };

    fn told(&mut self, _pc: u32, back: bool) -> bool {
        if back {
            self.back = self.back.saturating_add(1);
        } else {
            self.forward = self.forward.saturating_add(1);
        }
        true
    }

    fn sure_steps(&self) -> u64 {
        u64::MAX
    }

    fn told_each(&mut self, steps: &[StepAt]) {
        let mut forward = self.forward;
        let mut back = self.back;
        for step in steps {
            if step.back {
                back = back.saturating_add(1);
            } else {
                forward = forward.saturating_add(1);
            }
        }
        self.forward = forward;
        self.back = back;
    }

    fn line(&self, out: &mut String) -> Result<(), NoMemory> {
        let forward = self.forward;
        let back = self.back;
        let line = format!(in *out.allocator(); "forward {forward} back {back}")?;
        Ok(out.push_str(line.as_str())?)
    }
}
