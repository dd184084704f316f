// The steps that a list of probes observes.
ghost use Rattle.std.specs.Prelude.{◌≡◌, ◌+◌, ◌<◌, ◌++◌, List, map, vec_len, IfOk, IfErr, OnOk, OnErr, string_bytes};
ghost use Rattle.rpp_probes.specs.Tally.{Watch, EndNone, left_after, IsSureFor, AreSureFor, watch_line as line_shown, going, lines_at, IsCutShort, TellsAt, DropsAt, lines_shown};

use crate::one_probe::{tell, tell_each};
use crate::{Probe, StepAt};
use rpp_words::NoMemory;
use std::alloc::Global;

// Appends the line of a probe.
fn add_line(probe: &Box<dyn Probe>, out: &mut String) -> Result<(), NoMemory>
    ensures ok { OnOk result (string_bytes out.new
        ≡ string_bytes out.old ++ line_shown (watch probe.now)) }
    ensures err { OnErr result (string_bytes out.new ≡ string_bytes out.old) }
{
    probe.line(out)
}

// The line of a probe.
fn line_of(alloc: Global, probe: &Box<dyn Probe>) -> Result<String, NoMemory>
    ensures { IfOk result (λ line. string_bytes line ≡ line_shown (watch probe.now)) }
{
    let mut line = String::new(alloc);
    match add_line(probe, &mut line) {
        Ok(()) => Ok(line),
        Err(NoMemory) => Err(NoMemory),
    }
}

// Lets the probe at an index of the list observe a step, and returns whether it goes on.
#[inline(always)]
fn tell_at(probes: &mut Vec<Box<dyn Probe>>, at: usize, step: StepAt) -> bool
    requires { at < vec_len probes.old }
    ensures told { TellsAt step at (map watch probes.old.items) (map watch probes.new.items) result }
    ensures count { vec_len probes.new ≡ vec_len probes.old }
{
    tell(&mut probes[at], step)
}

// Keeps the line of a probe that has ended, and drops the probe.
#[cold]
#[inline(never)]
fn drop_at(
    alloc: Global,
    probes: &mut Vec<Box<dyn Probe>>,
    lines: &mut Vec<String>,
    at: usize,
) -> Result<(), NoMemory>
    requires { at < vec_len probes.old }
    ensures dropped { IfOk result (λ _.
        DropsAt at (map watch probes.old.items) (map watch probes.new.items)
        (map string_bytes lines.old.items) (map string_bytes lines.new.items)) }
    ensures count { OnOk result (vec_len probes.new + 1 ≡ vec_len probes.old) }
    ensures kept { OnErr result (map watch probes.new.items ≡ map watch probes.old.items) }
    ensures lines { OnErr result (map string_bytes lines.new.items ≡ map string_bytes lines.old.items) }
{
    let line = line_of(alloc, &probes[at])?;
    lines.push(line)?;
    let _ended = probes.remove(at);
    Ok(())
}

// Lets each probe of a list observe a step, in the order of the list. It is in the caller's loop,
// since it observes each step.
#[inline(always)]
fn tell_all(
    alloc: Global,
    probes: &mut Vec<Box<dyn Probe>>,
    lines: &mut Vec<String>,
    step: StepAt,
) -> Result<(), NoMemory>
    ensures told { OnOk result (map watch probes.new.items ≡ going step (map watch probes.old.items)) }
    ensures lines { OnOk result (map string_bytes lines.new.items ≡
        map string_bytes lines.old.items ++ lines_at step (map watch probes.old.items)) }
    ensures cut_short { IfErr result
        (λ _. IsCutShort step (map watch probes.old.items) (map watch probes.new.items)
        (map string_bytes lines.old.items) (map string_bytes lines.new.items)) }
{
    let mut at = 0;
    while at < probes.len() {
        if tell_at(probes, at, step) {
            at += 1;
        } else {
            match drop_at(alloc, probes, lines, at) {
                Ok(()) => {}
                Err(NoMemory) => return Err(NoMemory),
            }
        }
    }
    Ok(())
}

// How many steps surely do not end a probe.
fn sure_of(probe: &Box<dyn Probe>) -> u64
    ensures { IsSureFor result (watch probe.now) }
{
    probe.sure_steps()
}

// How many steps surely end no probe of a list.
fn sure_of_all(probes: &[Box<dyn Probe>]) -> u64
    ensures { AreSureFor result (map watch probes.now) }
{
    let mut sure = u64::MAX;
    for probe in probes {
        sure = sure.min(sure_of(probe));
    }
    sure
}

// Lets each probe of a list observe steps that end none of them.
fn tell_each_of(probes: &mut [Box<dyn Probe>], steps: &[StepAt])
    requires { EndNone steps.now (map watch probes.old) }
    ensures { map watch probes.new ≡ left_after steps.now (map watch probes.old) }
{
    for probe in probes.iter_mut() {
        tell_each(probe, steps);
    }
}

// The lines of the probes of a list, in its order, each with a line feed.
fn lines_of(alloc: Global, probes: &[Box<dyn Probe>]) -> Result<String, NoMemory>
    ensures { IfOk result (λ lines. string_bytes lines
        ≡ lines_shown (map line_shown (map watch probes.now))) }
{
    let mut lines = String::new(alloc);
    for probe in probes {
        add_line(probe, &mut lines)?;
        lines.push('\n')?;
    }
    Ok(lines)
}

/// Probes that watch a run together, in an order. A layer that passes steps to probes takes any
/// such list, and never sees what it holds.
pub trait Probes {
    /// The probes, in their order.
    ghost watches: { Self → List Watch };

    /// Lets each probe observe a step. The line of each that ends with it is added to `lines`, and
    /// the probe is dropped; the others keep their order. If memory runs out for a line, its probe
    /// stays, and those after it do not observe the step.
    fn tell(&mut self, alloc: Global, lines: &mut Vec<String>, step: StepAt) -> Result<(), NoMemory>
        ensures told { OnOk result (watches self.new ≡ going step (watches self.old)) }
        ensures lines { OnOk result (map string_bytes lines.new.items ≡
            map string_bytes lines.old.items ++ lines_at step (watches self.old)) }
        ensures cut_short { IfErr result (λ _. IsCutShort step (watches self.old) (watches self.new)
            (map string_bytes lines.old.items) (map string_bytes lines.new.items)) };

    /// How many steps surely end none of the probes, whatever they are.
    fn sure_steps(&self) -> u64
        ensures { AreSureFor result (watches self.now) };

    /// Lets each probe observe steps that end none of them. It allocates no memory.
    fn tell_each(&mut self, steps: &[StepAt])
        requires { EndNone steps.now (watches self.old) }
        ensures { watches self.new ≡ left_after steps.now (watches self.old) };

    /// Appends the lines of the probes, each with a line feed. If memory runs out, the text is as
    /// before.
    fn show(&self, out: &mut String) -> Result<(), NoMemory>
        ensures ok { OnOk result (string_bytes out.new
            ≡ string_bytes out.old ++ lines_shown (map line_shown (watches self.now))) }
        ensures err { OnErr result (string_bytes out.new ≡ string_bytes out.old) };
}

impl Probes for Vec<Box<dyn Probe>> {
    ghost watches = { λ probes. map (λ b. (Probe-box b).watch b.value) probes.items };

    #[inline(always)]
    fn tell(
        &mut self,
        alloc: Global,
        lines: &mut Vec<String>,
        step: StepAt,
    ) -> Result<(), NoMemory> {
        tell_all(alloc, self, lines, step)
    }

    fn sure_steps(&self) -> u64 {
        sure_of_all(self)
    }

    fn tell_each(&mut self, steps: &[StepAt]) {
        tell_each_of(self, steps);
    }

    fn show(&self, out: &mut String) -> Result<(), NoMemory> {
        let lines = lines_of(*out.allocator(), self)?;
        Ok(out.push_str(lines.as_str())?)
    }
}
