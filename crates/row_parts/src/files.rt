// The files that the commands of a row find and leave.
ghost use Rattle.std.specs.Prelude.{◌≡◌, option_map, codes};
ghost use Rattle.row_parts.specs.Pieces.{pieces};
ghost use Rattle.row_parts.specs.Texts.{meant};
ghost use Rattle.row_parts.specs.Faults.{Says};
ghost use Rattle.row_parts.specs.Files.{holds_how, compared, is_there, some_is_there, two_differ, size_differs, copying, change_parts, put_at, changed, all_changed, copied, Writes, Copies, Becomes};
ghost use Rattle.rpp_ports.specs.Shelves.{shelf_texts};

use crate::digits::number;
use crate::fault::{Fault, ensure};
use crate::pieces::cut;
use crate::texts::{is_word, plain};
use rpp_ports::{MemoryShelf, Shelf, ShelfFault};
use std::alloc::Global;

const MISSING: &str = "a file is missing";

/// Writes a file that a command is to find.
pub fn write(alloc: Global, shelf: &mut MemoryShelf, name: &str, text: &str) -> Result<(), Fault>
    ensures { Writes (shelf_texts shelf.old) (shelf_texts shelf.new) name.now (meant text.now)
        result }
{
    write_bytes(shelf, name, plain(alloc, text)?.as_slice())
}

fn write_bytes(shelf: &mut MemoryShelf, name: &str, bytes: &[u8]) -> Result<(), Fault>
    ensures { Writes (shelf_texts shelf.old) (shelf_texts shelf.new) name.now bytes.now result }
{
    match shelf.write(name, bytes) {
        Ok(()) => Ok(()),
        Err(ShelfFault::NoMemory) => Err(Fault::NoMemory),
        Err(_) => Err(Fault::Differs("a file is not written")),
    }
}

/// Compares a file with what it is, begins with or ends with.
pub fn compare(
    alloc: Global,
    shelf: &MemoryShelf,
    how: &str,
    name: &str,
    text: &str,
) -> Result<(), Fault>
    ensures { Says (compared (shelf_texts shelf.now) how.now name.now (meant text.now)) result }
{
    let wanted = plain(alloc, text)?;
    let Some(found) = shelf.text(name) else {
        return Err(Fault::Differs(MISSING));
    };
    ensure(
        is_as(how, found, wanted.as_slice()),
        "a file has other contents",
    )
}

// Whether bytes begin or end with others, or are these.
fn is_as(how: &str, found: &[u8], wanted: &[u8]) -> bool
    ensures { result ≡ holds_how how.now found.now wanted.now }
{
    if how == "begins" {
        found.starts_with(wanted)
    } else if how == "ends" {
        found.ends_with(wanted)
    } else {
        found == wanted
    }
}

/// Looks that there are no such files.
pub fn look_for_none(shelf: &MemoryShelf, names: &str) -> Result<(), Fault>
    ensures { Says (some_is_there (shelf_texts shelf.now) names.now) result }
{
    let mut rest = names;
    while let Some((name, behind)) = cut(rest, " ") {
        look_for_no(shelf, name)?;
        rest = behind;
    }
    look_for_no(shelf, rest)
}

fn look_for_no(shelf: &MemoryShelf, name: &str) -> Result<(), Fault>
    ensures { Says (is_there (shelf_texts shelf.now) name.now) result }
{
    ensure(
        shelf.text(name).is_none(),
        "there is a file that is not to be there",
    )
}

/// Looks that two files are the same.
pub fn look_for_same(shelf: &MemoryShelf, names: &str) -> Result<(), Fault>
    ensures { Says (two_differ (shelf_texts shelf.now) names.now) result }
{
    let Some((name, other)) = cut(names, " ") else {
        return Err(Fault::Differs("a line has no two names of files"));
    };
    let Some(found) = shelf.text(name) else {
        return Err(Fault::Differs(MISSING));
    };
    let Some(other) = shelf.text(other) else {
        return Err(Fault::Differs(MISSING));
    };
    ensure(found == other, "two files differ")
}

/// Looks how many bytes a file has.
pub fn look_for_size(shelf: &MemoryShelf, text: &str) -> Result<(), Fault>
    ensures { Says (size_differs (shelf_texts shelf.now) text.now) result }
{
    let Some((name, size)) = cut(text, " ") else {
        return Err(Fault::Differs("a line has no name and size"));
    };
    let Some(found) = shelf.text(name) else {
        return Err(Fault::Differs(MISSING));
    };
    ensure(
        number(size) == Some(found.len() as u64),
        "a file has another size",
    )
}

/// The names and the changes of the line `NAME: OTHER with CHANGES`, where it is one.
pub fn copying(line: &str) -> Option<(&str, &str, &str)>
    ensures { option_map (λ parts. (parts.0.now, parts.1.now, parts.2.now)) result
        ≡ copying line.now }
{
    let (name, rest) = cut(line, ": ")?;
    let (other, changes) = cut(rest, " with ")?;
    if is_word(name) && is_word(other) {
        Some((name, other, changes))
    } else {
        None
    }
}

/// Makes a file of another one, changed. If a change cannot be made, the files are as before.
pub fn copy(
    alloc: Global,
    shelf: &mut MemoryShelf,
    name: &str,
    other: &str,
    changes: &str,
) -> Result<(), Fault>
    ensures { Copies (shelf_texts shelf.old) (shelf_texts shelf.new) name.now
        (copied (shelf_texts shelf.old) other.now changes.now) result }
{
    let Some(found) = shelf.text(other) else {
        return Err(Fault::Differs(MISSING));
    };
    let mut bytes = found.to_vec(alloc)?;
    make_changes(&mut bytes, changes)?;
    write_bytes(shelf, name, bytes.as_slice())
}

// Makes changes that are parted by ", ".
fn make_changes(bytes: &mut Vec<u8>, changes: &str) -> Result<(), Fault>
    ensures { Becomes (all_changed bytes.old.items (pieces (codes ", ") changes.now))
        bytes.new.items result }
{
    let mut rest = changes;
    while let Some((change, behind)) = cut(rest, ", ") {
        make_change(bytes, change)?;
        rest = behind;
    }
    make_change(bytes, rest)
}

// How a change is made, and its numbers.
fn parts_of(change: &str) -> Option<(&str, u64, u64)>
    ensures { option_map (λ parts. (parts.0.now, parts.1, parts.2)) result
        ≡ change_parts change.now }
{
    let (how, numbers) = cut(change, " ")?;
    match cut(numbers, " ") {
        Some((first, second)) => Some((how, number(first)?, number(second)?)),
        None => Some((how, number(numbers)?, 0)),
    }
}

// Makes a change: `cut N` bytes, `byte AT N` or `word AT N` in place of the bytes there, `add N`.
fn make_change(bytes: &mut Vec<u8>, change: &str) -> Result<(), Fault>
    ensures { Becomes (changed bytes.old.items change.now) bytes.new.items result }
{
    let Some((how, first, second)) = parts_of(change) else {
        return Err(Fault::Differs("a line has no change"));
    };
    if how == "cut" {
        bytes.truncate(first as usize);
        return Ok(());
    }
    if how == "add" {
        return Ok(bytes.push(first.to_le_bytes()[0])?);
    }
    let [low, more, most, high, _, _, _, _] = second.to_le_bytes();
    if how == "byte" {
        put(bytes, first, &[low])
    } else {
        put(bytes, first, &[low, more, most, high])
    }
}

// Puts bytes in the place of as many others.
fn put(bytes: &mut Vec<u8>, at: u64, new: &[u8]) -> Result<(), Fault>
    ensures { Becomes (put_at at new.now bytes.old.items) bytes.new.items result }
{
    let length = bytes.len() as u64;
    if at > length || length - at < new.len() as u64 {
        return Err(Fault::Differs("a byte that changes is not there"));
    }
    let from = at as usize;
    let until = from + new.len();
    bytes[from..until].copy_from_slice(new);
    Ok(())
}
