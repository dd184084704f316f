// Writes the notes of images.
ghost use Rattle.std.specs.Prelude.{◌≡◌, ◌++◌, ◌<◌, ◌^◌, OnOk, length};
ghost use Rattle.std.specs.List.{flat_map, All};
ghost use Rattle.pisa_isa.specs.Notes.{NoteLists};
ghost use Rattle.pisa_image.specs.ImageBytes.{mark_bytes, name_bytes, notes_bytes};

use crate::writing::add_word;
use pisa_isa::{FieldName, Mark, Notes};
use std::alloc::AllocError;

fn add_mark(bytes: &mut Vec<u8>, mark: &Mark) -> Result<(), AllocError>
    ensures { OnOk result (bytes.new.items ≡ bytes.old.items ++ mark_bytes mark.now) }
{
    add_word(bytes, mark.first)?;
    add_word(bytes, mark.end)?;
    add_word(bytes, mark.at)
}

fn add_marks(bytes: &mut Vec<u8>, marks: &[Mark]) -> Result<(), AllocError>
    ensures { OnOk result (bytes.new.items ≡ bytes.old.items ++ flat_map mark_bytes marks.now) }
{
    for mark in marks {
        add_mark(bytes, mark)?;
    }
    Ok(())
}

fn add_name(bytes: &mut Vec<u8>, name: &FieldName) -> Result<(), AllocError>
    requires { length name.now.text < 2 ^ 32 }
    ensures { OnOk result (bytes.new.items ≡ bytes.old.items ++ name_bytes name.now) }
{
    let text = name.text.bytes();
    add_word(bytes, name.cell)?;
    add_word(bytes, text.len() as u32)?;
    bytes.extend_from_slice(text)
}

fn add_names(bytes: &mut Vec<u8>, names: &[FieldName]) -> Result<(), AllocError>
    requires { All (λ n. length n.text < 2 ^ 32) names.now }
    ensures { OnOk result (bytes.new.items ≡ bytes.old.items ++ flat_map name_bytes names.now) }
{
    for name in names {
        add_name(bytes, name)?;
    }
    Ok(())
}

/// Puts the bytes of notes at the end.
pub(crate) fn add_notes(bytes: &mut Vec<u8>, notes: &Notes) -> Result<(), AllocError>
    requires marks { length notes.now.marks < 2 ^ 32 }
    requires names { length notes.now.names < 2 ^ 32 }
    requires texts { All (λ n. length n.text < 2 ^ 32) notes.now.names }
    ensures { OnOk result (bytes.new.items ≡ bytes.old.items ++ notes_bytes notes.now) }
{
    add_word(bytes, notes.marks.len() as u32)?;
    add_marks(bytes, &notes.marks)?;
    add_word(bytes, notes.names.len() as u32)?;
    add_names(bytes, &notes.names)
}
