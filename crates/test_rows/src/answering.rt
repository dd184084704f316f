// What the program answers.
use rpp_command::{
    Coverage, DeepestPlace, MemoryShelf, MemorySink, NoMemory, Probe, StepTally, rooplpp,
};
use std::alloc::Global;

// The number of steps after which the probe of places ends, as in the program.
const MOST_COVERED: u64 = 1_000_000;

/// The status of a command and what it prints, with the probes of the program itself.
pub fn respond(
    alloc: Global,
    words: &[String],
    shelf: &mut MemoryShelf,
) -> Result<(u8, Vec<u8>), NoMemory> {
    let mut probes: Vec<Box<dyn Probe>> = Vec::new(alloc);
    probes.push(Box::new(alloc, StepTally::new())?)?;
    probes.push(Box::new(alloc, Coverage::new(alloc, MOST_COVERED)?)?)?;
    probes.push(Box::new(alloc, DeepestPlace::new())?)?;
    let mut out = MemorySink::new(alloc, Vec::new(alloc));
    let status = rooplpp(alloc, words, shelf, &mut out, &mut probes);
    Ok((status, out.bytes().to_vec(alloc)?))
}
