// What probes say of the steps that they observe, one by one or together.
ghost use Rattle.std.specs.Prelude.{false, [], ◌∷◌, codes};

use std::test::Fail;
use two_way_debugger::{Coverage, DeepestPlace, NoMemory, Probe, Probes, StepAt, StepTally};

// The counted steps of a run, some of them backward.
const STEPS: [(u32, bool); 6] = [
    (0, false),
    (5, false),
    (3, true),
    (5, true),
    (0, true),
    (9, false),
];

#[test]
fn places_past_the_table_are_not_counted(rt: HostRuntime) -> Result<(), Fail> {
    let alloc = rt.alloc();
    let mut coverage = Coverage::new(alloc, 3)?;
    assert!(rt; coverage.told(4_194_303, false));
    assert!(rt; coverage.told(4_194_304, false));
    assert!(rt; !coverage.told(0, true));
    assert!(rt; coverage.told(0, true));
    let mut text = String::new(alloc);
    assert!(rt; coverage.line(&mut text).is_ok());
    assert_eq!(rt; text.as_str(), "places 2");
    Ok(())
}

// Lets probes observe steps in one call, if they are sure of so many.
fn tell_together<P: Probes>(probes: &mut P, steps: &[StepAt]) -> bool {
    if steps.len() as u64 > probes.sure_steps() {
        return false;
    }
    probes.tell_each(steps);
    true
}

// The coverage ends with the fourth step, and is sure of those before and after it.
#[test]
fn steps_are_told_together(rt: HostRuntime) -> Result<(), Fail> {
    let alloc = rt.alloc();
    let mut steps = Vec::new(alloc);
    for (place, back) in STEPS {
        steps.push(StepAt { place, back })?;
    }
    assert_eq!(rt; steps.len(), 6);
    let mut probes: Vec<Box<dyn Probe>> = Vec::new(alloc);
    probes.push(Box::new(alloc, StepTally::new())?)?;
    probes.push(Box::new(alloc, Coverage::new(alloc, 4)?)?)?;
    probes.push(Box::new(alloc, DeepestPlace::new())?)?;
    assert_eq!(rt; probes.sure_steps(), 3);
    assert!(rt; !tell_together(&mut probes, &steps[..4]));
    assert!(rt; tell_together(&mut probes, &steps[..3]));
    assert_eq!(rt; probes.sure_steps(), 0);
    let mut lines = Vec::new(alloc);
    assert!(rt; probes.tell(alloc, &mut lines, steps[3]).is_ok());
    assert_eq!(rt; lines.len(), 1);
    assert_eq!(rt; lines[0].as_str(), "places 3");
    assert!(rt; tell_together(&mut probes, &steps[4..]));
    let mut text = String::new(alloc);
    assert!(rt; probes.show(&mut text).is_ok());
    assert_eq!(rt; text.as_str(), "forward 3 back 3\ndeepest 9\n");
    Ok(())
}

// A coverage that is past its limit is sure of any steps. One that observes steps together counts
// as one that observes them one by one.
#[test]
fn coverage_is_told_together(rt: HostRuntime) -> Result<(), Fail> {
    let alloc = rt.alloc();
    let mut coverage = Coverage::new(alloc, 1)?;
    assert_eq!(rt; coverage.sure_steps(), 0);
    assert!(rt; !coverage.told(7, false));
    assert_eq!(rt; coverage.sure_steps(), u64::MAX);
    let mut one = Vec::new(alloc);
    one.push(StepAt {
        place: 4_194_304,
        back: false,
    })?;
    one.push(StepAt {
        place: 4_194_303,
        back: true,
    })?;
    let mut probes: Vec<Box<dyn Probe>> = Vec::new(alloc);
    probes.push(Box::new(alloc, coverage)?)?;
    assert!(rt; tell_together(&mut probes, one.as_slice()));
    let mut text = String::new(alloc);
    assert!(rt; probes.show(&mut text).is_ok());
    assert_eq!(rt; text.as_str(), "places 2\n");
    Ok(())
}

// A probe of a caller's own, which says nothing of how long it goes on: it keeps the code address
// of the last step.
#[derive(Drop)]
struct LastPlace {
    place: u32,
}

impl Probe for LastPlace {
    ghost watch = { λ p. record { tally = p.place ∷ []; rule = λ tally step. step.place ∷ []; is_end = λ tally. false; shown = λ tally. codes "last" } };

    fn told(&mut self, pc: u32, _back: bool) -> bool {
        self.place = pc;
        true
    }

    fn line(&self, out: &mut String) -> Result<(), NoMemory> {
        Ok(out.push_str("last")?)
    }
}

#[test]
fn a_probe_of_the_callers_own_is_not_sure(rt: HostRuntime) -> Result<(), Fail> {
    let alloc = rt.alloc();
    let mut steps = Vec::new(alloc);
    for (place, back) in STEPS {
        steps.push(StepAt { place, back })?;
    }
    let mut last = LastPlace { place: 0 };
    assert_eq!(rt; last.sure_steps(), 0);
    last.told_each(&steps);
    assert_eq!(rt; last.place, 9);
    Ok(())
}
