// Images: code and static cells that keep the rules of the machine.
ghost use Rattle.std.specs.Prelude.{◌≡◌, ◌≤◌, not, length, position, vec_len, count_by, All, MatchResult, IfOk, Some, None};
ghost use Rattle.pisa_isa.specs.Table.{IsInRange, is_one_to_one};
ghost use Rattle.pisa_isa.specs.Image.{Segments, IsImage, is_start, is_finish, first_seal_refusal, start_of};

use crate::cell::{Cell, Op};
use std::marker::Model;
use thiserror::Error;

/// The most code cells of an image.
pub const MOST_CELLS: usize = 8_050_000;

/// The most static cells of an image.
pub const MOST_STATICS: usize = 262_144;

/// Why cells are no image.
#[derive(Clone, Copy, PartialEq, Eq, Debug, Error)]
pub enum SealError {
    /// The cell with this number is the first one whose target is one of its sources.
    #[error("cell {at} is not one-to-one")]
    NotOneToOne { at: u32 },
    /// The number of START cells is not 1.
    #[error("not exactly one START")]
    NoStart,
    /// The number of FINISH cells is not 1.
    #[error("not exactly one FINISH")]
    NoFinish,
    /// Memory ran out, which `Image::seal` never returns.
    #[error("no memory")]
    NoMemory,
}

/// A program of the machine: code cells, each one-to-one and with its fields in range, with exactly
/// one START and one FINISH, and the static cells that its data memory begins with.
#[derive(Drop)]
pub struct Image {
    code: Vec<Cell>,
    statics: Vec<u32>,
}

impl Model for Image {
    ghost use Rattle.pisa_isa.specs.Image.{Segments, IsImage};

    ghost Value = { Segments };

    ghost view = { λ i. record { code = i.code.items; statics = i.statics.items } };

    ghost invariant = { λ i. IsImage (record { code = i.code.items; statics = i.statics.items }) };
}

/// Whether it is a START cell.
fn is_start(cell: &Cell) -> bool
    ensures { result ≡ is_start cell.now }
{
    matches!(cell.op, Op::Start)
}

/// Whether it is a FINISH cell.
fn is_finish(cell: &Cell) -> bool
    ensures { result ≡ is_finish cell.now }
{
    matches!(cell.op, Op::Finish)
}

/// How many START cells there are.
fn starts(code: &[Cell]) -> usize
    ensures { result ≡ count_by is_start code.now }
{
    code.iter().filter(|cell| is_start(cell)).count()
}

/// How many FINISH cells there are.
fn finishes(code: &[Cell]) -> usize
    ensures { result ≡ count_by is_finish code.now }
{
    code.iter().filter(|cell| is_finish(cell)).count()
}

/// The first cell whose target is one of its sources.
fn first_not_one_to_one(code: &[Cell]) -> Option<usize>
    ensures { result ≡ position (λ c. not (is_one_to_one c)) code.now }
{
    code.iter().position(|cell| !cell.is_one_to_one())
}

/// The place of the first START cell, if there is one.
fn first_start(code: &[Cell]) -> Option<usize>
    ensures { result ≡ position is_start code.now }
{
    code.iter().position(|cell| is_start(cell))
}

/// Why these cells are no code of an image, if they are none.
fn first_refusal(code: &[Cell]) -> Option<SealError>
    requires { length code.now ≤ MOST_CELLS }
    ensures { result ≡ first_seal_refusal code.now }
{
    let starts = starts(code);
    let finishes = finishes(code);
    match first_not_one_to_one(code) {
        Some(at) => Some(SealError::NotOneToOne { at: at as u32 }),
        None if starts != 1 => Some(SealError::NoStart),
        None if finishes != 1 => Some(SealError::NoFinish),
        None => None,
    }
}

impl Image {
    /// An image of these cells. It takes no memory, and returns nothing if it refuses.
    pub fn seal(code: Vec<Cell>, statics: Vec<u32>) -> Result<Image, SealError>
        requires code_in_limit { vec_len code ≤ MOST_CELLS }
        requires statics_in_limit { vec_len statics ≤ MOST_STATICS }
        requires in_range { All IsInRange code.items }
        ensures sealed { MatchResult result (λ _. first_seal_refusal code.items ≡ None)
            (λ refusal. first_seal_refusal code.items ≡ Some refusal) }
        ensures image { IfOk result (λ image. image
            ≡ record { code = code.items; statics = statics.items }) }
    {
        match first_refusal(&code) {
            Some(refusal) => Err(refusal),
            None => Ok(Image { code, statics }),
        }
    }

    /// The cells of its code, in order.
    pub fn code(&self) -> &[Cell]
        ensures code { result.now ≡ self.now.code }
        ensures image { IsImage self.now }
    {
        &self.code
    }

    /// The words that its static cells begin with.
    pub fn statics(&self) -> &[u32]
        ensures statics { result.now ≡ self.now.statics }
        ensures image { IsImage self.now }
    {
        &self.statics
    }

    /// The place of the START cell.
    pub fn start(&self) -> u32
        ensures start { result ≡ start_of self.now.code }
        ensures image { IsImage self.now }
    {
        match first_start(&self.code) {
            Some(at) => at as u32,
            None => unreachable!(),
        }
    }
}
