// What watches a run.
ghost use Rattle.std.specs.Prelude.{◌≡◌, ◌++◌, not, false, OnOk, OnErr, string_bytes};
ghost use Rattle.rpp_probes.specs.Tally.{Watch, step_observed, told_all, has_ended, is_ended_in, watch_line, IsSureFor};

use rpp_words::NoMemory;

/// A counted step of a run, as it stands before it is made.
#[derive(Clone, Copy, Debug, PartialEq, Eq)]
pub struct StepAt {
    /// The code address of its cell.
    pub place: u32,
    /// Whether the direction is -1.
    pub back: bool,
}

/// Watches a run, step by step.
pub trait Probe: Drop {
    /// Its state, which is a list of numbers, and what no call changes. That is the rule from a
    /// state and a step to the next state, the end test of a state, and the line of a state. What
    /// the rule needs of the probe is in the state.
    ghost watch: { Self → Watch };

    /// Applies the rule for one step at a code address, backward or not, and returns whether the
    /// probe goes on: false exactly if the end test holds for the new tally.
    fn told(&mut self, pc: u32, back: bool) -> bool
        ensures told { watch self.new ≡ step_observed (record { place = pc; back = back }) (watch self.old) }
        ensures goes_on { result ≡ not (has_ended (watch self.new)) };

    /// Appends the line of the tally, with no line feed. If memory runs out, the text is as before.
    fn line(&self, out: &mut String) -> Result<(), NoMemory>
        ensures ok { OnOk result (string_bytes out.new
            ≡ string_bytes out.old ++ watch_line (watch self.now)) }
        ensures err { OnErr result (string_bytes out.new ≡ string_bytes out.old) };

    /// How many steps surely do not end it, whatever they are. A probe of which nothing is known says 0.
    fn sure_steps(&self) -> u64
        ensures { IsSureFor result (watch self.now) }
    {
        0
    }

    /// Applies the rule for steps that do not end it.
    fn told_each(&mut self, steps: &[StepAt])
        requires { is_ended_in steps.now (watch self.old) ≡ false }
        ensures { watch self.new ≡ told_all steps.now (watch self.old) }
    {
        for step in steps {
            let _goes_on = self.told(step.place, step.back);
        }
    }
}
