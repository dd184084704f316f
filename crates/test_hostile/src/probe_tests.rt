// Probes of a caller that watch: what `profile` says of them, and what `turn` leaves of them.
ghost use Rattle.std.specs.Prelude.{true, [], ◌∷◌, codes};

use crate::serving::shelf_of;
use rpp_command::{Coverage, MemorySink, NoMemory, Probe, Probes, StepTally, rooplpp};
use std::alloc::{AllocError, Global};
use std::test::Fail;

const FIRST: &[u8] = b"class P int x method main() x += 5";

// The status of a line over the first program as probes watch, its text, and the lines of the
// probes that are left.
fn answer_as_watch<P: Probes>(
    alloc: Global,
    words: &str,
    probes: &mut P,
) -> Result<(u8, Vec<u8>, String), Fail> {
    let mut owned = Vec::new(alloc);
    for word in words.split(' ') {
        owned.push(String::from_str(alloc, word)?)?;
    }
    let mut shelf = shelf_of(alloc, &[("F", FIRST)], &[])?;
    let mut out = MemorySink::new(alloc, Vec::new(alloc));
    let status = rooplpp(alloc, &owned, &mut shelf, &mut out, probes);
    let mut left = String::new(alloc);
    probes.show(&mut left)?;
    Ok((status, out.bytes().to_vec(alloc)?, left))
}

// The numbers of a text, in their order.
fn numbers_of(alloc: Global, text: &[u8]) -> Result<Vec<u64>, AllocError> {
    let mut numbers: Vec<u64> = Vec::new(alloc);
    let mut number: u64 = 0;
    let mut is_open = false;
    for byte in text {
        if *byte >= 48 && *byte < 58 {
            number = number.wrapping_mul(10).wrapping_add((*byte - 48) as u64);
            is_open = true;
        } else {
            if is_open {
                numbers.push(number)?;
            }
            number = 0;
            is_open = false;
        }
    }
    Ok(numbers)
}

// A caller's own probe: it ends with the first step, whose place it keeps.
#[derive(Drop)]
struct FirstStep {
    place: u32,
}

impl Probe for FirstStep {
    ghost watch = { λ p. record { tally = p.place ∷ []; rule = λ tally step. step.place ∷ []; is_end = λ tally. true; shown = λ tally. codes "begun" } };

    fn told(&mut self, pc: u32, _back: bool) -> bool {
        self.place = pc;
        false
    }

    fn line(&self, out: &mut String) -> Result<(), NoMemory> {
        Ok(out.push_str("begun")?)
    }
}

#[test]
fn a_probe_of_the_callers_own_watches(rt: HostRuntime) -> Result<(), Fail> {
    let alloc = rt.alloc();
    let mut probes: Vec<Box<dyn Probe>> = Vec::new(alloc);
    probes.push(Box::new(alloc, StepTally::new())?)?;
    probes.push(Box::new(alloc, FirstStep { place: 0 })?)?;
    let (status, said, left) = answer_as_watch(alloc, "profile F 1 1 1000000", &mut probes)?;
    assert_eq!(rt; status, 0);
    assert!(rt; said.as_slice().starts_with(b"x = 5\nlive 0\nsteps "));
    assert!(rt; said.as_slice().ends_with(left.as_str().as_bytes()));
    assert!(rt; left.as_str().starts_with("forward "));
    assert_eq!(rt; probes.len(), 1);
    Ok(())
}

// Only one probe: With `turn`, a probe observes each step back, and a coverage of four steps ends
// with the fourth one and is not left.
#[test]
fn one_probe_alone_watches_the_way_back(rt: HostRuntime) -> Result<(), Fail> {
    let alloc = rt.alloc();
    let mut probes: Vec<Box<dyn Probe>> = Vec::new(alloc);
    probes.push(Box::new(alloc, StepTally::new())?)?;
    let (status, said, left) = answer_as_watch(alloc, "turn F 1 1 1000000", &mut probes)?;
    assert_eq!(rt; status, 0);
    let there = numbers_of(alloc, said.as_slice())?;
    let back = numbers_of(alloc, left.as_str().as_bytes())?;
    assert_eq!(rt; there.len(), 7);
    assert_eq!(rt; back.len(), 2);
    assert!(rt; back[0].wrapping_add(back[1]) == there[3]);
    assert_eq!(rt; probes.len(), 1);
    let mut probes: Vec<Box<dyn Probe>> = Vec::new(alloc);
    probes.push(Box::new(alloc, Coverage::new(alloc, 4)?)?)?;
    let (status, _, left) = answer_as_watch(alloc, "turn F 1 1 1000000", &mut probes)?;
    assert_eq!(rt; status, 0);
    assert_eq!(rt; left.as_str(), "");
    assert_eq!(rt; probes.len(), 0);
    Ok(())
}
