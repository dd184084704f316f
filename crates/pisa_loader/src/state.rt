// States: the registers and the data cells of a machine as bytes.
ghost use Rattle.std.specs.Prelude.{◌≡◌, ◌≤◌, ◌<◌, ◌+◌, ◌*◌, ◌^◌, ◌++◌, ℕ, List, All, length, slice_index, vec_len, IfOk, OnOk, Ok};
ghost use Rattle.pisa_machine.specs.rpp_words.Words.{IsWord};
ghost use Rattle.pisa_machine.specs.Position.{first_position, IsMachine};
ghost use Rattle.pisa_image.specs.Numbers.{words_bytes};
ghost use Rattle.pisa_loader.specs.Limiting.{memory_size};
ghost use Rattle.pisa_machine.specs.rpp_words.Limits.{IsLimits};
ghost use Rattle.pisa_machine.specs.pisa_isa.Machine.{Memory};
ghost use Rattle.pisa_loader.specs.States.{Gives, loaded_memory, IsMemory, state_bytes, known_word, state_at, at_start};

use crate::error::LoadError;
use crate::memory::memory_size;
use pisa_image::{add_word, add_words, word_at, words_at};
use pisa_machine::{Image, Limits, Machine, NoMemory};
use std::alloc::{AllocError, Global};

/// The first four bytes of a state, `RPPS`, as a number.
pub const STATE_MARK: u32 = 0x5350_5052;
/// The version of the format of states.
pub const STATE_VERSION: u32 = 1;

/// A machine at the start of a run of an image, with the registers and the data cells of a state:
/// `RPPS`, the version, the 32 registers, the number of cells, which is that of the image with these
/// limits, and the cells; each number has four bytes, the lowest first.
pub fn load_state(
    alloc: Global,
    image: Image,
    limits: Limits,
    bytes: &[u8],
) -> Result<Machine, LoadError>
    requires { IsLimits limits }
    // What it returns, the first refusal included.
    ensures exact { Gives (λ machine. machine) result
        (at_start image (state_at (memory_size (length image.statics) limits) bytes.now)) }
    // What is read as a state is the bytes of the machine's, and its cells are as many.
    ensures found { IfOk result (λ machine. bytes.now
        ≡ state_bytes (loaded_memory machine.state.regs machine.state.cells)) }
    ensures size { IfOk result (λ machine. length machine.state.cells
        ≡ memory_size (length image.statics) limits) }
    // The bytes of a memory of this size are read as it, unless memory runs out.
    ensures only { (m : Memory) → IsMemory (memory_size (length image.statics) limits) m
        → bytes.now ≡ state_bytes m
        → Gives (λ machine. machine) result (Ok (first_position image m.regs m.cells)) }
{
    machine_of(alloc, image, limits, bytes)
}

fn machine_of(
    alloc: Global,
    image: Image,
    limits: Limits,
    bytes: &[u8],
) -> Result<Machine, LoadError>
    requires { IsLimits limits }
    ensures read { Gives (λ machine. machine) result
        (at_start image (state_at (memory_size (length image.statics) limits) bytes.now)) }
    ensures size { memory_size (length image.statics) limits < 2 ^ 24 }
{
    let count = memory_size(image.statics().len() as u32, limits);
    let (regs, cells) = state_at(alloc, count, bytes)?;
    Ok(Machine::start_with(alloc, image, regs, cells)?)
}

/// The registers and the data cells of a state with so many cells.
#[tactic(auto, unfolding(crate::specs::States::state_at))]
fn state_at(alloc: Global, count: u32, bytes: &[u8]) -> Result<([u32; 32], Vec<u32>), LoadError>
    requires { count < 2 ^ 24 }
    ensures read { Gives (λ x. loaded_memory x.0 x.1.items) result (state_at count bytes.now) }
    ensures len { IfOk result (λ x. vec_len x.1 ≡ count) }
{
    let rest = known_word(STATE_MARK, 0, bytes)?;
    let rest = known_word(STATE_VERSION, 4, rest)?;
    let (words, rest) = words_at(alloc, 32, 8, rest)?;
    let rest = known_word(count, 136, rest)?;
    let (cells, rest) = words_at(alloc, count, 140, rest)?;
    if !rest.is_empty() {
        return Err(LoadError::BadState {
            at: 140 + 4 * count,
        });
    }
    Ok((registers(&words), cells))
}

/// Thirty-two words.
fn registers(words: &[u32]) -> [u32; 32]
    requires { length words.now ≡ 32 }
    ensures { result ≡ words.now }
{
    let mut regs = [0; 32];
    regs.copy_from_slice(words);
    regs
}

/// The number at a place must be this one.
fn known_word(known: u32, at: u32, bytes: &[u8]) -> Result<&[u8], LoadError>
    requires { at < 2 ^ 31 }
    ensures { Gives (λ rest. rest.now) result (known_word known at bytes.now) }
{
    let (word, rest) = word_at(at, bytes)?;
    if word != known {
        return Err(LoadError::BadState { at });
    }
    Ok(rest)
}

/// The bytes of a machine's registers and data cells.
pub fn save_state(alloc: Global, machine: &Machine) -> Result<Vec<u8>, NoMemory>
    ensures bytes { IfOk result (λ bytes. bytes.items
        ≡ state_bytes (loaded_memory machine.now.state.regs machine.now.state.cells)) }
    // They are read as these registers and cells.
    ensures reads_back { IfOk result (λ bytes. state_at (length machine.now.state.cells) bytes.items
        ≡ Ok (loaded_memory machine.now.state.regs machine.now.state.cells)) }
{
    let count = machine.cells();
    let mut bytes = Vec::with_capacity(alloc, 140 + 4 * count as usize)?;
    bytes.extend_from_slice(b"RPPS")?;
    add_word(&mut bytes, STATE_VERSION)?;
    add_words(&mut bytes, &machine.core().regs)?;
    add_word(&mut bytes, count)?;
    add_cells(&mut bytes, machine)?;
    Ok(bytes)
}

/// The bytes of the data cells.
fn add_cells(bytes: &mut Vec<u8>, machine: &Machine) -> Result<(), AllocError>
    ensures { OnOk result (bytes.new.items ≡ bytes.old.items ++ words_bytes machine.now.state.cells) }
{
    for at in 0..machine.cells() {
        add_word(bytes, cell_at(machine, at))?;
    }
    Ok(())
}

/// The word in a data cell that is there.
fn cell_at(machine: &Machine, at: u32) -> u32
    requires { at < length machine.now.state.cells }
    ensures { result ≡ slice_index machine.now.state.cells at }
{
    match machine.cell(at) {
        Some(word) => word,
        None => unreachable!(),
    }
}
