// What is open around the block that runs.
ghost use Rattle.std.specs.Prelude.{◌≡◌, All, map};
ghost use Rattle.source_steps.specs.meaning_machine.Turned.{turned_open, turned_part};
ghost use Rattle.source_blocks.specs.Opens.{open_of, part_of, IsCaller, IsOpen};

use crate::task::{Task, count_in, undone_task};
use source_steps::tree::{Block, Var};
use source_steps::{Cell, Expr, Value};
use std::mem::swap;

/// A loop, in its direction.
#[derive(Clone, Copy)]
pub struct Loop<'a> {
    pub entry: &'a Expr,
    pub first: &'a Block,
    pub again: &'a Block,
    pub exit: &'a Expr,
    pub back: bool,
}

/// What a local variable begins or ends with.
#[derive(Clone, Copy)]
pub enum Closing<'a> {
    /// The word `nil`, with its place.
    Nil(u32),
    /// An expression of the text.
    Of(&'a Expr),
}

/// A local variable, in its direction.
#[derive(Clone, Copy)]
pub struct Local<'a> {
    pub name: &'a [u8],
    pub value: Closing<'a>,
    pub end_value: Closing<'a>,
}

/// The receiver of a call, with the value that moved out of it.
#[derive(Clone, Copy)]
pub struct Receiver {
    pub cell: Cell,
    pub value: Value,
}

/// The caller of an active call: its variables once the arguments have moved out, its object, how
/// many calls were open, and the cells of the receiver and the arguments.
#[derive(Drop)]
pub struct Caller<'a> {
    pub params: &'a [Var],
    pub locals: Vec<&'a [u8]>,
    /// The marks of the names of locals and parameters.
    pub marks: u64,
    pub values: Vec<Value>,
    pub object: u32,
    pub depth: u32,
    pub receiver: Option<Receiver>,
    pub args: Vec<Cell>,
}

/// Which part of an open statement runs.
#[derive(Drop)]
pub enum Part<'a> {
    /// A side of a choice: the first if its test was true.
    Chosen {
        side: bool,
        test: &'a Expr,
        after: &'a Expr,
    },
    /// The first part of a loop's iteration.
    First(Loop<'a>),
    /// The second.
    Again(Loop<'a>),
    /// The block of a local variable.
    Holding(Local<'a>),
    /// A method.
    Calling(Caller<'a>),
}

/// An enclosing statement: the block that it is in, how many statements of it are past, and the
/// part of it that runs.
#[derive(Drop)]
pub struct Frame<'a> {
    pub task: Task<'a>,
    pub at: usize,
    pub part: Part<'a>,
}

/// A loop, undone.
#[tactic(auto, using(crate::proofs::Around::first_undone, crate::proofs::Around::again_undone))]
fn undone_loop<'a>(turns: &Loop<'a>) -> Loop<'a>
    ensures first { part_of (Part.First result) ≡ turned_part (part_of (Part.First turns.now)) }
    ensures again { part_of (Part.Again result) ≡ turned_part (part_of (Part.Again turns.now)) }
{
    Loop {
        entry: turns.exit,
        first: turns.first,
        again: turns.again,
        exit: turns.entry,
        back: !turns.back,
    }
}

/// Which part of an open statement runs, once it is undone.
fn turn_part(part: &mut Part)
    ensures turned { part_of part.new ≡ turned_part (part_of part.old) }
    ensures caller { IsCaller part.old → IsCaller part.new }
{
    match part {
        Part::Chosen { test, after, .. } => swap(test, after),
        Part::First(turns) => *turns = undone_loop(turns),
        Part::Again(turns) => *turns = undone_loop(turns),
        Part::Holding(local) => swap(&mut local.value, &mut local.end_value),
        Part::Calling(_caller) => {}
    }
}

/// An open statement is undone: what is past in its block is to come.
fn turn_frame(frame: &mut Frame)
    requires { IsOpen frame.old }
    ensures turned { open_of frame.new ≡ turned_open (open_of frame.old) }
    ensures open { IsOpen frame.new }
{
    frame.at = count_in(&frame.task) - 1 - frame.at;
    frame.task = undone_task(&frame.task);
    turn_part(&mut frame.part);
}

/// Each open statement is undone.
pub fn turn_frames(frames: &mut Vec<Frame>)
    requires { All IsOpen frames.old.items }
    ensures turned { map open_of frames.new.items
        ≡ map turned_open (map open_of frames.old.items) }
    ensures open { All IsOpen frames.new.items }
{
    for frame in frames.iter_mut() {
        turn_frame(frame);
    }
}
