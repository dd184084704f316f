// Clusters.
ghost use Rattle.std.specs.Prelude.{◌≡◌, ◌<◌, ◌≤◌, ◌^◌, ◌+◌, ℕ, pos, All, map, length, vec_len, replicate, slice_get, remove, [], option_map, IfOk, IfErr, IsSome, Some, None};
ghost use Rattle.pisa_isa.specs.Image.{IsImage};
ghost use Rattle.pisa_cluster.specs.declared.processor.Processor.{Processor};
ghost use Rattle.pisa_cluster.specs.Replay.{started_processor, start_of_joint, processor_at, replay, makers};
ghost use Rattle.pisa_cluster.specs.Schedules.{Schedule, first_schedule, IsCluster, IsFree, ProcessorMoves, Undoes, rewound};

use crate::processor::{Common, Kept, Processor};
use crate::search::{last_step, next_touch, steps_after};
use pisa_isa::{Core, Image, NoMemory, Stop};
use std::alloc::Global;
use std::marker::Model;

/// Processors with their images on common cells, and the steps that they made and keep, in order.
#[derive(Drop)]
pub struct Cluster {
    processors: Vec<Processor>,
    cells: Common,
    kept: Vec<Kept>,
    next_serial: u64,
}

/// What a step of a processor comes to.
#[derive(Clone, Copy, PartialEq, Eq, Debug)]
pub enum Moved {
    /// It was made, and is kept under this serial number.
    Made(u64),
    /// The processor is at a stop, and nothing changes.
    Stopped(Stop),
}

/// What undoing the last step of a processor comes to.
#[derive(Clone, Copy, PartialEq, Eq, Debug)]
pub enum Undone {
    /// The step with this serial number was undone.
    Done(u64),
    /// No step of the processor is kept.
    Nothing,
    /// Another processor has touched the same cell since.
    Blocked {
        /// The number of that processor.
        who: u32,
        /// The serial number of the first such step.
        serial: u64,
    },
}

/// Processors at the START of their images, with zero registers.
fn started_all(alloc: Global, images: Vec<Image>) -> Result<Vec<Processor>, NoMemory>
    ensures started { IfOk result (λ processors. processors.items ≡ map started_processor images.items) }
    ensures images { IfOk result (λ processors. All (λ (p : Processor). IsImage p.image)
        processors.items) }
{
    let mut processors = Vec::with_capacity(alloc, images.len())?;
    for image in images {
        processors.push(Processor::started(image))?;
    }
    Ok(processors)
}

impl Model for Cluster {
    ghost use Rattle.pisa_cluster.specs.Schedules.{Schedule, IsCluster};

    ghost Value = { Schedule };

    ghost view = { λ c. record {
      joint = record { processors = c.processors.items; cells = c.cells.words.items };
      kept = c.kept.items;
      next_serial = c.next_serial;
    } };

    ghost invariant = { λ c. IsCluster (record {
      joint = record { processors = c.processors.items; cells = c.cells.words.items };
      kept = c.kept.items;
      next_serial = c.next_serial;
    }) };
}

impl Cluster {
    /// Processors at the START of these images, with zero registers, on so many zero cells. The
    /// static words of the images are not used.
    pub fn new(alloc: Global, images: Vec<Image>, cells: u32) -> Result<Cluster, NoMemory>
        requires some { 1 ≤ vec_len images }
        requires few { vec_len images ≤ 8 }
        requires cells { 1 ≤ cells }
        requires most { cells ≤ 65536 }
        ensures { IfOk result (λ c. c ≡ first_schedule images.items cells) }
    {
        let processors = started_all(alloc, images)?;
        Ok(Cluster {
            processors,
            cells: Common::zeros(alloc, cells)?,
            kept: Vec::new(alloc),
            next_serial: 1,
        })
    }

    /// Makes one step of a processor and keeps it under the next serial number.
    pub fn step(&mut self, who: u32) -> Result<Moved, NoMemory>
        requires first { 1 ≤ who }
        requires last { who ≤ length self.old.joint.processors }
        requires serial { self.old.next_serial < 2 ^ 63 }
        ensures answer { IfOk result (λ answer. ProcessorMoves who answer self.old self.new) }
        ensures refused { IfErr result (λ e. self.new ≡ self.old) }
        ensures processors { length self.new.joint.processors ≡ length self.old.joint.processors }
        ensures cells { length self.new.joint.cells ≡ length self.old.joint.cells }
    {
        let at = who as usize - 1;
        let serial = self.next_serial;
        let touched = self.processors[at].touches();
        self.kept.push(Kept {
            serial,
            who,
            touched,
        })?;
        match self.processors[at].step(&mut self.cells) {
            Some(why) => {
                self.kept.pop();
                Ok(Moved::Stopped(why))
            }
            None => {
                self.next_serial += 1;
                Ok(Moved::Made(serial))
            }
        }
    }

    /// Undoes the last kept step of a processor, unless a later step of another touched the same
    /// cell.
    pub fn undo(&mut self, who: u32) -> Undone
        requires first { 1 ≤ who }
        requires last { who ≤ length self.old.joint.processors }
        ensures answer { Undoes who result self.old self.new }
        ensures processors { length self.new.joint.processors ≡ length self.old.joint.processors }
        ensures cells { length self.new.joint.cells ≡ length self.old.joint.cells }
    {
        let Some(at) = last_step(&self.kept, who) else {
            return Undone::Nothing;
        };
        let step = self.kept[at];
        if let Some(other) = next_touch(step.touched, steps_after(&self.kept, at)) {
            return Undone::Blocked {
                who: other.who,
                serial: other.serial,
            };
        }
        self.take_back(at);
        Undone::Done(step.serial)
    }

    /// Undoes all kept steps, from the last one on, and returns how many they were.
    pub fn rewind(&mut self) -> u64
        ensures count { result ≡ length self.old.kept }
        ensures rewinds { self.new ≡ rewound self.old }
        ensures processors { length self.new.joint.processors ≡ length self.old.joint.processors }
        ensures cells { length self.new.joint.cells ≡ length self.old.joint.cells }
    {
        let count = self.kept.len();
        for left in (0..count).rev() {
            self.take_back(left);
        }
        count as u64
    }

    /// Undoes a kept step that is its processor's last one, if no later step touched the same cell.
    fn take_back(&mut self, at: usize)
        requires there { at < length self.old.kept }
        requires free { IsFree at self.old.kept }
        ensures leads { self.new ≡ record self.old {
          joint = replay (start_of_joint self.old.joint) (makers (remove self.old.kept at));
          kept = remove self.old.kept at;
        } }
        ensures cluster { IsCluster self.new }
        ensures processors { length self.new.joint.processors ≡ length self.old.joint.processors }
        ensures cells { length self.new.joint.cells ≡ length self.old.joint.cells }
    {
        let step = self.kept.remove(at);
        self.processors[step.who as usize - 1].step_back(&mut self.cells);
    }

    /// The steps that are kept, in order of their serial numbers.
    pub fn kept(&self) -> &[Kept]
        ensures kept { result.now ≡ self.now.kept }
        ensures cluster { IsCluster self.now }
    {
        &self.kept
    }

    /// A processor's place, branch register, direction and registers.
    pub fn core(&self, who: u32) -> &Core
        requires first { 1 ≤ who }
        requires last { who ≤ length self.now.joint.processors }
        ensures core { option_map (λ (p : Processor). p.core) (processor_at self.now.joint who)
            ≡ Some result.now }
        ensures cluster { IsCluster self.now }
    {
        &self.processors[who as usize - 1].core
    }

    /// The word in a common cell, if there is the cell.
    pub fn cell(&self, at: u32) -> Option<u32>
        ensures { result ≡ slice_get self.now.joint.cells at }
    {
        self.cells.words.get(at as usize).copied()
    }

    /// The serial number of the next kept step.
    pub fn next_serial(&self) -> u64
        ensures { result ≡ self.now.next_serial }
    {
        self.next_serial
    }
}
