// The greatest code address of a run.
ghost use Rattle.std.specs.Prelude.{◌≡◌, [], ◌∷◌};
ghost use Rattle.std.specs.Option.{option_to_list};
ghost use Rattle.rpp_probes.specs.Rules.{deepest_place, deepened};

use crate::{Probe, StepAt};
use rpp_words::NoMemory;

/// Keeps the greatest code address of the steps.
#[derive(Drop)]
pub struct DeepestPlace {
    deepest: Option<u32>,
}

// The greatest code address with one more.
fn deeper(deepest: Option<u32>, place: u32) -> u32
    ensures { result ∷ [] ≡ deepened place (option_to_list deepest) }
{
    match deepest {
        Some(deepest) => deepest.max(place),
        None => place,
    }
}

impl DeepestPlace {
    /// No step so far.
    pub fn new() -> DeepestPlace
        ensures { ⟦<DeepestPlace as Probe>⟧.watch result ≡ deepest_place [] }
    {
        DeepestPlace { deepest: None }
    }
}

// It never ends.
impl Probe for DeepestPlace {
    ghost watch = { λ p. deepest_place (option_to_list p.deepest) };

    fn told(&mut self, pc: u32, _back: bool) -> bool {
        self.deepest = Some(deeper(self.deepest, pc));
        true
    }

    fn sure_steps(&self) -> u64 {
        u64::MAX
    }

    fn told_each(&mut self, steps: &[StepAt]) {
        let mut deepest = self.deepest;
        for step in steps {
            deepest = Some(deeper(deepest, step.place));
        }
        self.deepest = deepest;
    }

    fn line(&self, out: &mut String) -> Result<(), NoMemory> {
        let line = match self.deepest {
            Some(deepest) => format!(in *out.allocator(); "deepest {deepest}")?,
            None => String::from_str(*out.allocator(), "deepest none")?,
        };
        Ok(out.push_str(line.as_str())?)
    }
}
