// The steps that a probe observes.
ghost use Rattle.std.specs.Prelude.{◌≡◌, not, false};
ghost use Rattle.rpp_probes.specs.Tally.{step_observed, told_all, has_ended, is_ended_in};

use crate::{Probe, StepAt};

/// Lets a probe observe a step, and returns whether it goes on.
#[inline(always)]
pub(crate) fn tell(probe: &mut Box<dyn Probe>, step: StepAt) -> bool
    ensures told { watch probe.new ≡ step_observed step (watch probe.old) }
    ensures goes_on { result ≡ not (has_ended (watch probe.new)) }
{
    probe.told(step.place, step.back)
}

/// Lets a probe observe steps that do not end it.
pub(crate) fn tell_each(probe: &mut Box<dyn Probe>, steps: &[StepAt])
    requires { is_ended_in steps.now (watch probe.old) ≡ false }
    ensures { watch probe.new ≡ told_all steps.now (watch probe.old) }
{
    probe.told_each(steps);
}
