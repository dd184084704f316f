// Wraps an image.
ghost use Rattle.std.specs.Prelude.{◌≡◌, ◌≤◌, ◌<◌, ◌+◌, ◌-◌, ◌*◌, ◌^◌, ◌++◌, length, map, take, drop, count_by, position, IfOk, OnOk};
ghost use Rattle.image_inverter.specs.pisa_isa.Image.{is_start, is_finish, IsImage};
ghost use Rattle.paired_code.specs.code_conventions.Cells.{bra};
ghost use Rattle.paired_code.specs.Layout.{between};
ghost use Rattle.bennett_wrap.specs.Copying.{copied_cells};
ghost use Rattle.bennett_wrap.specs.Wrapped.{left_by, entered_by, finish_of, inner, code_joined, wrapped_code, Wrapped};

use crate::copying::copy_image;
use image_inverter::{Cell, Image, MOST_CELLS, NoMemory, Op, flip};
use paired_code::cells::with_word;
use std::alloc::Global;

/// The most cells that are copied.
pub const MOST_COPIED: usize = 64;

/// The most code cells of an image that is wrapped: whatever is copied, the wrapped image then has no
/// more than an image may have.
pub const MOST_WRAPPED: usize = (MOST_CELLS - 13 - 8 * MOST_COPIED) / 2;

/// An image that computes, copies and uncomputes. It has the code of the image with a branch
/// instead of FINISH, the copy code, and the inverse code with a branch instead of START.
pub fn wrap_image(alloc: Global, image: &Image, cells: &[u32]) -> Result<Image, NoMemory>
    requires code_in_limit { length image.now.code ≤ MOST_WRAPPED }
    requires few { length cells.now ≤ MOST_COPIED }
    ensures code { IfOk result (λ wrapped. wrapped.code ≡ wrapped_code image.now.code cells.now) }
    ensures statics { IfOk result (λ wrapped. wrapped.statics ≡ image.now.statics) }
    ensures size { IfOk result (λ wrapped. length wrapped.code
        ≡ 2 * length image.now.code + 13 + 8 * length cells.now) }
    ensures runs { IfOk result (λ wrapped. Wrapped image.now.code cells.now wrapped.code) }
{
    let all = joined_code(alloc, image, cells)?;
    let statics = image.statics().to_vec(alloc)?;
    match Image::seal(all, statics) {
        Ok(wrapped) => Ok(wrapped),
        Err(_refusal) => unreachable!(),
    }
}

fn joined_code(alloc: Global, image: &Image, cells: &[u32]) -> Result<Vec<Cell>, NoMemory>
    requires code_in_limit { length image.now.code ≤ MOST_WRAPPED }
    requires few { length cells.now ≤ MOST_COPIED }
    ensures { IfOk result (λ all. all.items ≡ wrapped_code image.now.code cells.now) }
{
    let code = image.code();
    let n = code.len() as u32;
    let finish = finish_of(code);
    let copied = n + 1 + (11 + 8 * cells.len() as u32);
    let entered = copied + 1 + (n - 1 - finish);
    let copy = copy_image(alloc, cells)?;
    let flipped = flip(alloc, image)?;
    let mut all = Vec::new(alloc);
    put_left(&mut all, code, bra(finish, n))?;
    all.push(bra(n, finish))?;
    put_inner(&mut all, copy.code())?;
    all.push(bra(copied, entered))?;
    put_entered(&mut all, flipped.code(), bra(entered, copied))?;
    Ok(all)
}

/// The place of the first FINISH cell, if there is one.
fn first_finish(code: &[Cell]) -> Option<usize>
    ensures { result ≡ position is_finish code.now }
{
    code.iter().position(|cell| is_finish(cell))
}

/// The place of the FINISH cell.
fn finish_of(code: &[Cell]) -> u32
    requires one { count_by is_finish code.now ≡ 1 }
    requires few { length code.now < 2 ^ 32 }
    ensures value { result ≡ finish_of code.now }
    ensures within { result < length code.now }
{
    match first_finish(code) {
        Some(at) => at as u32,
        None => unreachable!(),
    }
}

/// Whether it is a FINISH cell.
fn is_finish(cell: &Cell) -> bool
    ensures { result ≡ is_finish cell.now }
{
    matches!(cell.op, Op::Finish)
}

/// Whether it is a START cell.
fn is_start(cell: &Cell) -> bool
    ensures { result ≡ is_start cell.now }
{
    matches!(cell.op, Op::Start)
}

fn put_left(all: &mut Vec<Cell>, code: &[Cell], jump: Cell) -> Result<(), NoMemory>
    ensures { OnOk result (all.new.items ≡ all.old.items ++ map (left_by jump) code.now) }
{
    for cell in code.iter().copied() {
        all.push(left_by(jump, cell))?;
    }
    Ok(())
}

fn left_by(jump: Cell, cell: Cell) -> Cell
    ensures { result ≡ left_by jump cell }
{
    if is_finish(&cell) { jump } else { cell }
}

fn put_entered(all: &mut Vec<Cell>, code: &[Cell], jump: Cell) -> Result<(), NoMemory>
    ensures { OnOk result (all.new.items ≡ all.old.items ++ map (entered_by jump) code.now) }
{
    for cell in code.iter().copied() {
        all.push(entered_by(jump, cell))?;
    }
    Ok(())
}

fn entered_by(jump: Cell, cell: Cell) -> Cell
    ensures { result ≡ entered_by jump cell }
{
    if is_start(&cell) { jump } else { cell }
}

/// The cells between START and FINISH.
fn put_inner(all: &mut Vec<Cell>, code: &[Cell]) -> Result<(), NoMemory>
    requires { 2 ≤ length code.now }
    ensures { OnOk result (all.new.items ≡ all.old.items ++ inner code.now) }
{
    let last = code.len() - 1;
    let within = &code[1..last];
    for cell in within.iter().copied() {
        all.push(cell)?;
    }
    Ok(())
}

fn bra(from: u32, to: u32) -> Cell
    ensures { result ≡ bra (between from to) }
{
    with_word(Op::Bra, 0, offset(from, to))
}

fn offset(from: u32, to: u32) -> u32
    ensures { result ≡ between from to }
{
    if from <= to {
        to - from
    } else {
        u32::MAX - (from - to) + 1
    }
}
