// The memory that a run begins with.
ghost use Rattle.std.specs.Prelude.{◌≡◌, ◌≤◌, ◌<◌, ◌+◌, ◌-◌, ◌*◌, ◌/◌, ◌++◌, ◌^◌, All, length, replicate, vec_len, IfOk, OnOk};
ghost use Rattle.pisa_machine.specs.rpp_words.Words.{IsWord};
ghost use Rattle.pisa_machine.specs.pisa_isa.Loaded.{loaded, heap_base as base_of, fixed_cells, empty_heads, with_words};
ghost use Rattle.pisa_machine.specs.pisa_isa.Image.{IsImage};
ghost use Rattle.pisa_machine.specs.pisa_isa.Runs.{zero_registers};
ghost use Rattle.pisa_machine.specs.Position.{first_position};
ghost use Rattle.pisa_loader.specs.Limiting.{IsInputOf, memory_size};
ghost use Rattle.pisa_machine.specs.rpp_words.Limits.{IsLimits};

use pisa_machine::{
    FIXED_CELLS, FRAME_WORDS, FieldWord, HEADER_WORDS, Image, Input, Limits, MOST_STATICS, Machine,
    NoMemory,
};
use std::alloc::{AllocError, Global};

/// A machine at the start of a run of an image: an empty heap, zero registers, and the input's words
/// in the fields of the main object, which the static cells begin with.
pub fn load(alloc: Global, image: Image, limits: Limits, input: &Input) -> Result<Machine, NoMemory>
    requires limits { IsLimits limits }
    requires input { IsInputOf image.statics input.now.words.items }
    ensures machine { IfOk result (λ machine.
        machine ≡ first_position image zero_registers
        (loaded image.statics limits input.now.words.items)) }
    ensures image { IfOk result (λ machine. IsImage machine.image) }
{
    load_more(alloc, image, limits, input, 0)
}

/// The machine that `load` makes, with so many cells of 0 after its memory.
pub fn load_more(
    alloc: Global,
    image: Image,
    limits: Limits,
    input: &Input,
    more: u32,
) -> Result<Machine, NoMemory>
    requires limits { IsLimits limits }
    requires input { IsInputOf image.statics input.now.words.items }
    requires room { more ≤ 2 ^ 24 }
    ensures machine { IfOk result (λ machine.
        machine ≡ first_position image zero_registers
        (loaded image.statics limits input.now.words.items ++ replicate more 0)) }
    ensures image { IfOk result (λ machine. IsImage machine.image) }
{
    let zeros = zeros_behind(image.statics().len() as u32, limits, more);
    let cells = front_cells(alloc, image.statics(), limits, &input.words)?;
    Machine::start_with_more(image, [0; 32], cells, zeros)
}

/// The number of cells of a run's memory, for an image with so many static cells.
pub(crate) fn memory_size(statics: u32, limits: Limits) -> u32
    requires limits { IsLimits limits }
    requires statics { statics ≤ MOST_STATICS }
    ensures size { result ≡ memory_size statics limits }
    ensures high { result < 2 ^ 24 }
{
    heap_base(limits.heap, statics) + heap_size(limits.heap) + FRAME_WORDS * limits.deep
}

/// The cells of 0 after the static cells: up to the heap, the heap, the stack and so many more.
fn zeros_behind(statics: u32, limits: Limits, more: u32) -> u32
    requires limits { IsLimits limits }
    requires statics { statics ≤ MOST_STATICS }
    requires room { more ≤ 2 ^ 24 }
    ensures count { result ≡ base_of limits.heap statics - FIXED_CELLS - statics + 2 ^ limits.heap
        + FRAME_WORDS * limits.deep + more }
    ensures high { FIXED_CELLS + statics + result < 2 ^ 32 }
{
    let gap = heap_base(limits.heap, statics) - FIXED_CELLS - statics;
    gap + heap_size(limits.heap) + FRAME_WORDS * limits.deep + more
}

/// The first cells of a run that begins with these static cells, this input and an empty heap, up
/// to the last static cell.
fn front_cells(
    alloc: Global,
    statics: &[u32],
    limits: Limits,
    input: &[FieldWord],
) -> Result<Vec<u32>, AllocError>
    requires limits { IsLimits limits }
    requires statics { length statics.now ≤ MOST_STATICS }
    requires input { IsInputOf statics.now input.now }
    ensures items { IfOk result (λ cells. cells.items ≡ fixed_cells limits.heap limits.deep
        (base_of limits.heap (length statics.now))
        (empty_heads limits.heap (base_of limits.heap (length statics.now)))
        ++ with_words input.now statics.now) }
    ensures len { IfOk result (λ cells. vec_len cells ≡ FIXED_CELLS + length statics.now) }
{
    let base = heap_base(limits.heap, statics.len() as u32);
    let words = with_words(alloc, statics, input)?;
    let mut cells = Vec::new(alloc);
    add_fixed(&mut cells, limits, base)?;
    cells.extend_from_slice(&words)?;
    Ok(cells)
}

/// The static cells with the input's words in the main object's fields.
fn with_words(alloc: Global, statics: &[u32], input: &[FieldWord]) -> Result<Vec<u32>, AllocError>
    requires statics { length statics.now ≤ MOST_STATICS }
    requires input { IsInputOf statics.now input.now }
    ensures items { IfOk result (λ words. words.items ≡ with_words input.now statics.now) }
    ensures len { IfOk result (λ words. vec_len words ≡ length statics.now) }
{
    let mut words = statics.to_vec(alloc)?;
    for entry in input {
        words[(HEADER_WORDS + entry.field) as usize] = entry.word;
    }
    Ok(words)
}

/// The fixed cells, with the whole heap as its one free block.
fn add_fixed(cells: &mut Vec<u32>, limits: Limits, base: u32) -> Result<(), AllocError>
    requires limits { IsLimits limits }
    requires base { base < 2 ^ 22 }
    requires empty { vec_len cells.old ≡ 0 }
    ensures items { OnOk result (cells.new.items
        ≡ fixed_cells limits.heap limits.deep base (empty_heads limits.heap base)) }
    ensures len { OnOk result (vec_len cells.new ≡ FIXED_CELLS) }
{
    let stack = base + heap_size(limits.heap);
    let end = stack + FRAME_WORDS * limits.deep;
    cells.extend_from_slice(&[0, limits.heap, base, stack, end, 0, 0, 0, 0])?;
    add_zeros(cells, limits.heap - 1)?;
    cells.push(base)?;
    add_zeros(cells, 31 - limits.heap)
}

fn add_zeros(cells: &mut Vec<u32>, count: u32) -> Result<(), AllocError>
    requires { vec_len cells.old + count < 2 ^ 32 }
    ensures items { OnOk result (cells.new.items ≡ cells.old.items ++ replicate count 0) }
    ensures len { OnOk result (vec_len cells.new ≡ vec_len cells.old + count) }
{
    let end = cells.len() + count as usize;
    cells.resize(end, 0)
}

/// The least multiple of the heap's size not below the end of so many static cells.
fn heap_base(heap: u32, statics: u32) -> u32
    requires heap { heap ≤ 20 }
    requires statics { statics ≤ MOST_STATICS }
    ensures base { result ≡ base_of heap statics }
    ensures low { FIXED_CELLS + statics ≤ result }
    ensures high { result < 2 ^ 22 }
{
    multiple_below(FIXED_CELLS + statics + heap_size(heap) - 1, heap_size(heap))
}

/// The words of a heap.
fn heap_size(heap: u32) -> u32
    requires { heap ≤ 20 }
    ensures size { result ≡ 2 ^ heap }
    ensures low { 1 ≤ result }
    ensures high { result ≤ 2 ^ 20 }
{
    1 << heap
}

/// The greatest multiple of a size that is not above a number.
fn multiple_below(number: u32, size: u32) -> u32
    requires { 1 ≤ size }
    ensures multiple { result ≡ number / size * size }
    ensures low { number < result + size }
    ensures high { result ≤ number }
{
    number - number % size
}
