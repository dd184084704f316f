// Files that commands read.
ghost use Rattle.std.specs.Prelude.{◌≡◌, ◌<◌, option_map, IfOk, string_bytes, ◌≤◌, [], ◌∷◌, length, Ok, None, Some};
ghost use Rattle.command_plan.specs.Files.{state_of_names, OnlyReads, image_file, source_file, input_files, state_files, why_of, unread};
ghost use Rattle.command_plan.specs.Plans.{IsInputText, IsStateText};
ghost use Rattle.command_plan.specs.Reads.{Gave, Asks};
ghost use Rattle.rpp_ports.specs.Ports.{IsTextOf};
ghost use Rattle.class_table.specs.rpp_tree.declared.limits.TheConstants.{MOST_BYTES};
ghost use Rattle.pisa_loader.specs.declared.input.TheConstants.{MOST_INPUT};

use crate::plan::NoPlan;
use class_table::NoMemory;
use class_table::limits::MOST_BYTES;
use pisa_loader::MOST_INPUT;
use rpp_ports::{Shelf, ShelfFault};
use std::alloc::{AllocError, Global};

/// The file of the state that a run begins with, `-` for the loaded memory, and the file for the
/// state where it ends.
#[derive(Debug, Drop)]
pub struct StateNames {
    pub state: String,
    pub save: String,
}

/// The number of bytes that an image file may have.
pub const MOST_IMAGE: usize = 67_108_864;

/// The number of bytes that a state file may have.
pub const MOST_STATE: usize = 33_554_432;

/// The text of a file, of at most so many bytes.
pub fn read_file<S: Shelf>(
    alloc: Global,
    shelf: &mut S,
    name: &str,
    limit: u64,
) -> Result<Vec<u8>, NoPlan>
    ensures text { IfOk result (λ bytes. IsTextOf (S.texts shelf.old) name.now bytes.items) }
    ensures within { IfOk result (λ bytes. length bytes.items ≤ limit) }
    ensures gave { IfOk result (λ bytes. Gave (S.texts shelf.old)
        (record { name = name.now; limit = limit } ∷ []) (bytes.items ∷ []) (S.events shelf.old)
        (S.events shelf.new)) }
    ensures asks { Asks (S.texts shelf.old) (S.faults shelf.old) (S.faults shelf.new)
        (record { name = name.now; limit = limit } ∷ []) (S.events shelf.old)
        (S.events shelf.new) result }
    ensures reads { OnlyReads (S.texts shelf.old) (S.texts shelf.new) (S.faults shelf.old)
        (S.faults shelf.new)
        (record { name = name.now; limit = limit } ∷ []) result }
{
    match shelf.read(name, limit) {
        Ok(bytes) => Ok(bytes),
        Err(ShelfFault::NoMemory) => Err(NoPlan::NoMemory),
        Err(fault) => Err(NoPlan::Unread {
            text: unread_line(alloc, name, fault)?,
        }),
    }
}

/// The texts of two files.
#[derive(Drop)]
pub struct Both {
    pub first: Vec<u8>,
    pub second: Vec<u8>,
}

/// The texts of two files, one after the other, each of at most so many bytes.
pub fn read_both<S: Shelf>(
    alloc: Global,
    shelf: &mut S,
    first: &str,
    most: u64,
    second: &str,
    most_second: u64,
) -> Result<Both, NoPlan>
    ensures text { IfOk result (λ both. IsTextOf (S.texts shelf.old) first.now both.first.items) }
    ensures other { IfOk result (λ both. IsTextOf (S.texts shelf.old) second.now both.second.items) }
    ensures within { IfOk result (λ both. length both.first.items ≤ most) }
    ensures within_second { IfOk result (λ both. length both.second.items ≤ most_second) }
    ensures reads { OnlyReads (S.texts shelf.old) (S.texts shelf.new) (S.faults shelf.old)
        (S.faults shelf.new)
        (record { name = first.now; limit = most }
        ∷ record { name = second.now; limit = most_second } ∷ []) result }
{
    let first = read_file(alloc, shelf, first, most)?;
    let second = read_file(alloc, shelf, second, most_second)?;
    Ok(Both { first, second })
}

/// A source, and the input to it.
#[derive(Drop)]
pub struct Given {
    pub text: Vec<u8>,
    pub input: Vec<u8>,
}

/// A source, and an input if there is one; else the input is empty.
pub fn read_given<S: Shelf>(
    alloc: Global,
    shelf: &mut S,
    file: &str,
    input: &Option<String>,
) -> Result<Given, NoPlan>
    ensures text { IfOk result (λ given. IsTextOf (S.texts shelf.old) file.now given.text.items) }
    ensures input { IfOk result (λ given. IsInputText (S.texts shelf.old)
        (option_map string_bytes input.now) given.input.items) }
    ensures within { IfOk result (λ given. length given.text.items ≤ MOST_BYTES) }
    ensures within_input { IfOk result (λ given. length given.input.items ≤ MOST_INPUT) }
    ensures reads { OnlyReads (S.texts shelf.old) (S.texts shelf.new) (S.faults shelf.old)
        (S.faults shelf.new) (source_file file.now ∷ input_files (option_map string_bytes input.now))
        result }
{
    let text = read_file(alloc, shelf, file, MOST_BYTES as u64)?;
    let input = read_input_file(alloc, shelf, input)?;
    Ok(Given { text, input })
}

/// The text of an input if there is one; else it is empty.
pub fn read_input_file<S: Shelf>(
    alloc: Global,
    shelf: &mut S,
    input: &Option<String>,
) -> Result<Vec<u8>, NoPlan>
    ensures text { IfOk result (λ bytes. IsInputText (S.texts shelf.old)
        (option_map string_bytes input.now) bytes.items) }
    ensures within { IfOk result (λ bytes. length bytes.items ≤ MOST_INPUT) }
    ensures reads { OnlyReads (S.texts shelf.old) (S.texts shelf.new) (S.faults shelf.old)
        (S.faults shelf.new) (input_files (option_map string_bytes input.now)) result }
{
    match input {
        None => Ok(Vec::new(alloc)),
        Some(name) => read_file(alloc, shelf, name.as_str(), MOST_INPUT as u64),
    }
}

/// The bytes of an image file, and of a state file if there is one.
#[derive(Drop)]
pub struct Images {
    pub image: Vec<u8>,
    pub state: Option<Vec<u8>>,
}

/// An image, and a state if one is named.
pub fn read_images<S: Shelf>(
    alloc: Global,
    shelf: &mut S,
    image: &str,
    states: &Option<StateNames>,
) -> Result<Images, NoPlan>
    ensures text { IfOk result (λ read. IsTextOf (S.texts shelf.old) image.now read.image.items) }
    ensures within { IfOk result (λ read. length read.image.items ≤ MOST_IMAGE) }
    ensures state { IfOk result (λ read. IsStateText (S.texts shelf.old) (state_of_names states.now)
        (option_map (λ v. v.items) read.state)) }
    ensures reads { OnlyReads (S.texts shelf.old) (S.texts shelf.new) (S.faults shelf.old)
        (S.faults shelf.new) (image_file image.now ∷ state_files (state_of_names states.now))
        result }
{
    let image = read_file(alloc, shelf, image, MOST_IMAGE as u64)?;
    let state = read_state(alloc, shelf, states)?;
    Ok(Images { image, state })
}

// The bytes of a state, if one is named.
fn read_state<S: Shelf>(
    alloc: Global,
    shelf: &mut S,
    states: &Option<StateNames>,
) -> Result<Option<Vec<u8>>, NoPlan>
    ensures state { IfOk result (λ read. IsStateText (S.texts shelf.old) (state_of_names states.now)
        (option_map (λ v. v.items) read)) }
    ensures reads { OnlyReads (S.texts shelf.old) (S.texts shelf.new) (S.faults shelf.old)
        (S.faults shelf.new) (state_files (state_of_names states.now)) result }
{
    let Some(names) = states else {
        return Ok(None);
    };
    if names.state.as_str() == "-" {
        return Ok(None);
    }
    let bytes = read_file(alloc, shelf, names.state.as_str(), MOST_STATE as u64)?;
    Ok(Some(bytes))
}

fn why(fault: ShelfFault) -> &'static str
    ensures { result.now ≡ why_of fault }
{
    match fault {
        ShelfFault::Missing => "missing",
        ShelfFault::TooLong => "too long",
        ShelfFault::Failed => "failed",
        ShelfFault::NoMemory => "",
    }
}

// The line on a file that could not be read.
fn unread_line(alloc: Global, name: &str, fault: ShelfFault) -> Result<String, AllocError>
    ensures { IfOk result (λ line. string_bytes line ≡ unread name.now fault) }
{
    let why = why(fault);
    format!(in alloc; "cannot read {name}: {why}\n")
}
