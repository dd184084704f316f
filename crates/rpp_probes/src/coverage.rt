// Which code addresses a run has come to.
ghost use Rattle.std.specs.Prelude.{◌≡◌, ◌+◌, ◌<◌, ◌≤◌, ◌^◌, IfOk, length, slice_set, sum, vec_len};
ghost use Rattle.rpp_probes.specs.declared.coverage.TheConstants.{MOST_PLACES};
ghost use Rattle.rpp_probes.specs.Marks.{AreMarks};
ghost use Rattle.rpp_probes.specs.Rules.{coverage, marked, marked_all, CoversNothing};

use crate::{Probe, StepAt};
use rpp_words::NoMemory;
use std::alloc::{AllocError, Global};

/// How many code addresses the table has.
pub const MOST_PLACES: u32 = 4_194_304;

/// Marks the code addresses below 4,194,304, and ends with the step with which it has observed as
/// many as its limit. If the limit is 0, it never ends.
#[derive(Drop)]
pub struct Coverage {
    limit: u64,
    steps: u64,
    places: u64,
    marks: Vec<u8>,
    ghost whole: { length marks.items ≡ MOST_PLACES },
    ghost are_marks: { AreMarks marks.items },
    ghost counted: { sum marks.items ≡ places },
}

// A table of so many code addresses, none of which is marked.
fn unmarked(alloc: Global, count: usize) -> Result<Vec<u8>, AllocError>
    ensures count { IfOk result (λ marks. length marks.items ≡ count) }
    ensures marks { IfOk result (λ marks. AreMarks marks.items) }
    ensures nothing { IfOk result (λ marks. sum marks.items ≡ 0) }
{
    let mut marks = Vec::with_capacity(alloc, count)?;
    marks.resize(count, 0)?;
    Ok(marks)
}

// Marks a code address, and returns how many code addresses more are marked.
fn mark(marks: &mut Vec<u8>, place: usize) -> u64
    requires place { place < length marks.old.items }
    requires marks { AreMarks marks.old.items }
    ensures marked { marks.new.items ≡ slice_set marks.old.items place 1 }
    ensures more { sum marks.new.items ≡ sum marks.old.items + result }
    ensures marks { AreMarks marks.new.items }
    ensures few { sum marks.new.items ≤ length marks.new.items }
{
    let old = marks[place];
    marks[place] = 1;
    u64::from(1 - old)
}

// Marks a code address if the table has it, and returns how many code addresses more are marked.
fn mark_place(marks: &mut Vec<u8>, place: u32) -> u64
    requires whole { length marks.old.items ≡ MOST_PLACES }
    requires marks { AreMarks marks.old.items }
    ensures marked { marks.new.items ≡ marked place marks.old.items }
    ensures whole { length marks.new.items ≡ MOST_PLACES }
    ensures more { sum marks.new.items ≡ sum marks.old.items + result }
    ensures marks { AreMarks marks.new.items }
    ensures few { sum marks.new.items ≤ MOST_PLACES }
{
    if place < MOST_PLACES {
        mark(marks, place as usize)
    } else {
        0
    }
}

// Marks the code addresses of steps, and returns how many code addresses more are marked.
fn mark_each(marks: &mut Vec<u8>, steps: &[StepAt]) -> u64
    requires whole { length marks.old.items ≡ MOST_PLACES }
    requires marks { AreMarks marks.old.items }
    ensures marked { marks.new.items ≡ marked_all steps.now marks.old.items }
    ensures whole { length marks.new.items ≡ MOST_PLACES }
    ensures more { sum marks.new.items ≡ sum marks.old.items + result }
    ensures marks { AreMarks marks.new.items }
    ensures few { sum marks.new.items ≤ MOST_PLACES }
{
    let mut more = 0;
    for step in steps {
        more += mark_place(marks, step.place);
    }
    more
}

impl Coverage {
    /// No place so far, with the number of the step at which it ends.
    pub fn new(alloc: Global, limit: u64) -> Result<Coverage, NoMemory>
        requires { limit < 2 ^ 63 }
        ensures { IfOk result (λ probe. CoversNothing limit (⟦<Coverage as Probe>⟧.watch probe)) }
    {
        Ok(Coverage {
            limit,
            steps: 0,
            places: 0,
            marks: unmarked(alloc, MOST_PLACES as usize)?,
        })
    }
}

impl Probe for Coverage {
    ghost watch = { λ p. coverage p.limit p.steps p.marks.items };

    fn told(&mut self, pc: u32, _back: bool) -> bool {
        self.places += mark_place(&mut self.marks, pc);
        self.steps = self.steps.saturating_add(1);
        self.steps != self.limit
    }

    fn sure_steps(&self) -> u64 {
        if self.steps < self.limit {
            self.limit - self.steps - 1
        } else if self.limit < u64::MAX {
            u64::MAX
        } else {
            0
        }
    }

    fn told_each(&mut self, steps: &[StepAt]) {
        self.places += mark_each(&mut self.marks, steps);
        self.steps = self.steps.saturating_add(steps.len() as u64);
    }

    fn line(&self, out: &mut String) -> Result<(), NoMemory> {
        let places = self.places;
        let line = format!(in *out.allocator(); "places {places}")?;
        Ok(out.push_str(line.as_str())?)
    }
}
