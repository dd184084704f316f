// Processors, and the cells that they have in common.
ghost use Rattle.std.specs.Prelude.{◌≡◌, ◌<◌, ◌^◌, replicate, IfOk, length, is_none, if◌then◌else◌, None};
ghost use Rattle.pisa_isa.specs.Image.{IsImage};
ghost use Rattle.pisa_isa.specs.Machine.{State, stop, next, IsState, IsNext};
ghost use Rattle.pisa_cluster.specs.Replay.{started_processor, touches, processor_state, in_state};

use pisa_isa::{Cells, Core, Image, NoMemory, Op, Stop, step, unstep};
use std::alloc::Global;

/// A processor: its image, and its place, branch register, direction and registers.
#[derive(Drop)]
pub struct Processor {
    pub(crate) image: Image,
    pub(crate) core: Core,
}

/// A step that was made and is kept.
#[derive(Clone, Copy, PartialEq, Eq, Debug)]
pub struct Kept {
    /// Its serial number, from 1.
    pub serial: u64,
    /// The number of the processor that made it, from 1.
    pub who: u32,
    /// The data cell that it exchanged, if it was an EXCH.
    pub touched: Option<u32>,
}

/// The cells that all processors have in common.
#[derive(Drop)]
pub(crate) struct Common {
    pub(crate) words: Vec<u32>,
    ghost few: { length words.items < 2 ^ 32 },
}

impl Cells for Common {
    ghost words = { λ s. s.words.items };

    fn len(&self) -> u32 {
        self.words.len() as u32
    }

    fn exchange(&mut self, at: u32, word: &mut u32) {
        let old = self.words[at as usize];
        self.words[at as usize] = *word;
        *word = old;
    }
}

impl Common {
    /// So many zero cells.
    pub(crate) fn zeros(alloc: Global, count: u32) -> Result<Common, NoMemory>
        ensures { IfOk result (λ cells. cells.words.items ≡ replicate count 0) }
    {
        let mut words = Vec::new(alloc);
        words.resize(count as usize, 0)?;
        Ok(Common { words })
    }
}

impl Processor {
    /// A processor at the START of an image, with zero registers.
    pub(crate) fn started(image: Image) -> Processor
        ensures processor { result ≡ started_processor image }
        ensures image { IsImage result.image }
    {
        Processor {
            core: Core {
                pc: i64::from(image.start()),
                br: 0,
                back: false,
                regs: [0; 32],
            },
            image,
        }
    }

    /// Makes one step, or returns why the processor stops, and then changes nothing.
    pub(crate) fn step(&mut self, cells: &mut Common) -> Option<Stop>
        ensures stops { result ≡ stop self.old.image.code (processor_state self.old cells.old.words.items) }
        ensures processor { self.new ≡ (if is_none result
            then in_state self.old (next self.old.image.code (processor_state self.old cells.old.words.items))
            else self.old) }
        ensures cells { cells.new.words.items
            ≡ (if is_none result
            then (next self.old.image.code (processor_state self.old cells.old.words.items)).cells
            else cells.old.words.items) }
    {
        step(&mut self.core, self.image.code(), cells)
    }

    /// Undoes a step that was made.
    pub(crate) fn step_back(&mut self, cells: &mut Common)
        requires made { IsNext self.old.image.code (processor_state self.old cells.old.words.items) }
        ensures undoes { (m : State) → IsState m → stop self.old.image.code m ≡ None
            → processor_state self.old cells.old.words.items ≡ next self.old.image.code m
            → (self.new ≡ in_state self.old m) × (cells.new.words.items ≡ m.cells) }
    {
        unstep(&mut self.core, self.image.code(), cells);
    }

    /// The data cell that the next step exchanges, if it is at an EXCH.
    pub(crate) fn touches(&self) -> Option<u32>
        ensures { result ≡ touches self.now }
    {
        let code = self.image.code();
        if self.core.pc.cast_unsigned() >= code.len() as u64 {
            return None;
        }
        let cell = &code[self.core.pc as usize];
        match cell.op {
            Op::Exch => Some(self.core.regs[cell.b as usize]),
            _ => None,
        }
    }
}
