// Blocks that the allocator allocates and frees, and checks of registers, through a linked image of
// its routine only.
ghost use Rattle.std.specs.Prelude.{◌≢◌, ◌<◌, ◌^◌, length};

use buddy_pisa::{
    BLOCK, Cell, Cells, Core, Image, ORDER, Op, Piece, Stop, allocator, cells_of, check_zero,
    empty, enter, link, marks_in, plain, seq, step,
};
use std::alloc::Global;
use std::process::Abort;
use std::test::Fail;

/// Data cells in a vector.
#[derive(Drop)]
struct Words {
    words: Vec<u32>,
    ghost in_limit: { length words.items < 2 ^ 32 },
}

impl Cells for Words {
    ghost words = { λ s. s.words.items };

    fn len(&self) -> u32 {
        self.words.len() as u32
    }

    fn exchange(&mut self, at: u32, word: &mut u32) {
        let i = at as usize;
        let old = self.words[i];
        self.words[i] = *word;
        *word = old;
    }
}

/// The machine at the first cell of its code, forward, with zero registers.
fn at_start() -> Core {
    Core {
        pc: 0,
        br: 0,
        back: false,
        regs: [0; 32],
    }
}

/// The cells of an empty heap of order `h` at `base`, and 12 more after it.
fn empty_heap<R: Abort>(rt: &R, alloc: Global, h: u32, base: u32) -> Result<Words, Fail> {
    assert!(rt; 1 <= h && h <= 20 && 40 <= base && base <= 4096);
    let mut words = vec![in alloc; 0; (base + (1 << h) + 12) as usize]?;
    words[1] = h;
    words[2] = base;
    words[(8 + h) as usize] = base;
    Ok(Words { words })
}

fn image_of<R: Abort>(rt: &R, alloc: Global, main: Piece) -> Result<Image, Fail> {
    let routine = allocator(alloc)?;
    assert!(rt; cells_of(&main).len() < 1000);
    assert!(rt; marks_in(&main).len() < 1000);
    assert!(rt; marks_in(&routine).len() < 1000);
    let routines = vec![in alloc; routine]?;
    Ok(link(alloc, main, routines, Vec::new(alloc))?.into_parts().0)
}

/// Why the run stops, if it does within 2,000 steps.
fn run(image: &Image, core: &mut Core, words: &mut Words) -> Option<Stop> {
    for _ in 0..2000 {
        if let Some(stop) = step(core, image.code(), words) {
            return Some(stop);
        }
    }
    None
}

/// A register that is 0 takes another's word, which becomes 0.
fn moved(alloc: Global, to: u8, from: u8) -> Result<Piece, Fail>
    requires to_register { to < 32 }
    requires from_register { from < 32 }
    requires apart { to ≢ from }
{
    Ok(seq(xored(alloc, to, from)?, xored(alloc, from, to)?)?)
}

fn xored(alloc: Global, to: u8, from: u8) -> Result<Piece, Fail>
    requires to_register { to < 32 }
    requires from_register { from < 32 }
    requires apart { to ≢ from }
{
    let cell = Cell {
        op: Op::Xor,
        a: to,
        b: from,
        c: 0,
        imm: 0,
    };
    Ok(plain(alloc, cell)?)
}

/// A block is taken and its address moved to a register, or the block of a register is given back, or
/// the run traps with 7 if a register is not 0.
#[derive(Clone, Copy)]
enum Move {
    Take(u8),
    Give(u8),
    Zero(u8),
}

fn piece_of<R: Abort>(rt: &R, alloc: Global, step: Move) -> Result<Piece, Fail> {
    match step {
        Move::Take(to) => {
            assert!(rt; to < 12);
            Ok(seq(enter(alloc, 0, false)?, moved(alloc, to, BLOCK)?)?)
        }
        Move::Give(from) => {
            assert!(rt; from < 12);
            Ok(seq(moved(alloc, BLOCK, from)?, enter(alloc, 0, true)?)?)
        }
        Move::Zero(reg) => {
            assert!(rt; reg < 12);
            Ok(check_zero(alloc, reg, 7)?)
        }
    }
}

/// What these moves of blocks of order 1 leave of an empty heap of order 2 at 40.
struct Row<'a> {
    title: &'a str,
    moves: &'a [Move],
    stop: Stop,
    /// The registers 5 and 6.
    blocks: (u32, u32),
    /// The heads of the lists of orders 1 and 2, and the first word of the heap.
    heads: (u32, u32, u32),
}

const ROWS: [Row<'static>; 6] = [
    Row {
        title: "a take: the upper half is taken, the lower half is free",
        moves: &[Move::Take(5)],
        stop: Stop::Finished,
        blocks: (42, 0),
        heads: (40, 0, 0),
    },
    Row {
        title: "three takes: the third traps",
        moves: &[Move::Take(5), Move::Take(6), Move::Take(7)],
        stop: Stop::Trap(8),
        blocks: (42, 40),
        heads: (0, 0, 0),
    },
    Row {
        title: "the upper half is given first: they do not merge",
        moves: &[Move::Take(5), Move::Take(6), Move::Give(5), Move::Give(6)],
        stop: Stop::Finished,
        blocks: (0, 0),
        heads: (40, 0, 42),
    },
    Row {
        title: "the lower half is given first: they merge",
        moves: &[Move::Take(5), Move::Take(6), Move::Give(6), Move::Give(5)],
        stop: Stop::Finished,
        blocks: (0, 0),
        heads: (0, 40, 0),
    },
    Row {
        title: "a register that is 0 passes its check",
        moves: &[Move::Zero(5)],
        stop: Stop::Finished,
        blocks: (0, 0),
        heads: (0, 40, 0),
    },
    Row {
        title: "a register that holds a block does not",
        moves: &[Move::Take(5), Move::Zero(6), Move::Zero(5)],
        stop: Stop::Trap(7),
        blocks: (42, 0),
        heads: (40, 0, 0),
    },
];

#[test]
fn blocks_are_taken_and_given(rt: HostRuntime) -> Result<(), Fail> {
    let alloc = rt.alloc();
    for row in &ROWS {
        let mut main = empty(alloc);
        for step in row.moves {
            main = seq(main, piece_of(&rt, alloc, *step)?)?;
        }
        let image = image_of(&rt, alloc, main)?;
        let mut words = empty_heap(&rt, alloc, 2, 40)?;
        let mut core = at_start();
        core.regs[ORDER as usize] = 1;
        let stop = run(&image, &mut core, &mut words);
        assert_eq!(rt; stop, Some(row.stop), "{}", row.title);
        assert_eq!(rt; (core.regs[5], core.regs[6]), row.blocks, "{}", row.title);
        assert!(rt; words.words.len() > 42);
        let heads = (words.words[9], words.words[10], words.words[40]);
        assert_eq!(rt; heads, row.heads, "{}", row.title);
    }
    Ok(())
}
