// From image to text.
ghost use Rattle.std.specs.Prelude.{◌≡◌, ◌≤◌, ◌<◌, ◌^◌, ◌++◌, ◌∷◌, [], string_bytes, string_len, All, IfOk, OnOk, Ok};
ghost use Rattle.std.specs.Str.{IsAscii};
ghost use Rattle.pisa_isa.specs.Table.{has_a, has_b, c_is_source};
ghost use Rattle.pisa_isa.specs.Notes.{HasAsciiText};
ghost use Rattle.pisa_isa.specs.rpp_words.Words.{IsWord};
ghost use Rattle.pisa_asm.specs.declared.assembler.TheConstants.{MOST_TEXT};
ghost use Rattle.pisa_asm.specs.Passes.{noted_of_text};
ghost use Rattle.pisa_asm.specs.Listing.{signed_text, offset_text, register_text, last_text, cell_text, static_text, number_text, mark_text, name_text, lines_by, listing};

use crate::mnemonic::mnemonic;
use crate::operand::{Last, has_registers, last_of};
use pisa_isa::{Cell, FieldName, Mark, NoMemory, Noted, wrap_sub};
use std::alloc::{AllocError, Global};

/// Adds a word in signed decimal.
fn add_signed(out: &mut String, word: u32) -> Result<(), AllocError>
    ensures { OnOk result (string_bytes out.new ≡ string_bytes out.old ++ 32 ∷ signed_text word) }
{
    if word < 1 << 31 {
        write!(out, " {word}")
    } else {
        let below = wrap_sub(0, word);
        write!(out, " -{below}")
    }
}

/// Adds an offset in signed decimal with its sign.
fn add_offset(out: &mut String, offset: u32) -> Result<(), AllocError>
    ensures { OnOk result (string_bytes out.new ≡ string_bytes out.old ++ 32 ∷ offset_text offset) }
{
    if offset < 1 << 31 {
        write!(out, " +{offset}")
    } else {
        let below = wrap_sub(0, offset);
        write!(out, " -{below}")
    }
}

/// Adds a register, if the instruction has it.
fn add_register(out: &mut String, has: bool, register: u8) -> Result<(), AllocError>
    ensures { OnOk result (string_bytes out.new ≡ string_bytes out.old ++ register_text has register) }
{
    if has {
        write!(out, " ${register}")
    } else {
        Ok(())
    }
}

/// Adds the last operand of an instruction.
fn add_last(out: &mut String, last: Last, imm: u32) -> Result<(), AllocError>
    ensures { OnOk result (string_bytes out.new ≡ string_bytes out.old ++ last_text last imm) }
{
    match last {
        Last::Nothing => Ok(()),
        Last::Word => add_signed(out, imm),
        Last::Amount => write!(out, " {imm}"),
        Last::Offset => add_offset(out, imm),
    }
}

/// Adds the line of a cell.
fn add_cell(out: &mut String, cell: &Cell) -> Result<(), AllocError>
    ensures { OnOk result (string_bytes out.new
        ≡ string_bytes out.old ++ (cell_text cell.now ++ 10 ∷ [])) }
{
    let (has_a, has_b, has_c) = has_registers(cell.op);
    out.push_str(mnemonic(cell.op))?;
    add_register(out, has_a, cell.a)?;
    add_register(out, has_b, cell.b)?;
    add_register(out, has_c, cell.c)?;
    add_last(out, last_of(cell.op), cell.imm)?;
    out.push('\n')
}

/// Adds the line of a static word.
fn add_static(out: &mut String, word: u32) -> Result<(), AllocError>
    ensures { OnOk result (string_bytes out.new ≡ string_bytes out.old ++ (static_text word ++ 10 ∷ [])) }
{
    out.push_str("STATIC")?;
    add_signed(out, word)?;
    out.push('\n')
}

/// Adds the lines of cells.
fn add_code(out: &mut String, code: &[Cell]) -> Result<(), AllocError>
    ensures { OnOk result (string_bytes out.new ≡ string_bytes out.old ++ lines_by cell_text code.now) }
{
    for cell in code {
        add_cell(out, cell)?;
    }
    Ok(())
}

/// Adds the lines of static words.
fn add_statics(out: &mut String, statics: &[u32]) -> Result<(), AllocError>
    ensures { OnOk result (string_bytes out.new
        ≡ string_bytes out.old ++ lines_by static_text statics.now) }
{
    for word in statics {
        add_static(out, *word)?;
    }
    Ok(())
}

/// Adds a number.
fn add_number(out: &mut String, number: u32) -> Result<(), AllocError>
    ensures { OnOk result (string_bytes out.new ≡ string_bytes out.old ++ number_text number) }
{
    write!(out, " {number}")
}

/// Adds the line of a mark.
fn add_mark(out: &mut String, mark: &Mark) -> Result<(), AllocError>
    ensures { OnOk result (string_bytes out.new
        ≡ string_bytes out.old ++ (mark_text mark.now ++ 10 ∷ [])) }
{
    out.push_str("MARK")?;
    add_number(out, mark.first)?;
    add_number(out, mark.end)?;
    add_number(out, mark.at)?;
    out.push('\n')
}

/// Adds the lines of marks.
fn add_marks(out: &mut String, marks: &[Mark]) -> Result<(), AllocError>
    ensures { OnOk result (string_bytes out.new ≡ string_bytes out.old ++ lines_by mark_text marks.now) }
{
    for mark in marks {
        add_mark(out, mark)?;
    }
    Ok(())
}

/// Adds bytes.
fn add_bytes(out: &mut String, bytes: &[u8]) -> Result<(), AllocError>
    requires { IsAscii bytes.now }
    ensures { OnOk result (string_bytes out.new ≡ string_bytes out.old ++ bytes.now) }
{
    for byte in bytes {
        out.push(char::from(*byte))?;
    }
    Ok(())
}

/// Adds the line of a name.
fn add_name(out: &mut String, name: &FieldName) -> Result<(), AllocError>
    requires { IsAscii name.now.text }
    ensures { OnOk result (string_bytes out.new
        ≡ string_bytes out.old ++ (name_text name.now ++ 10 ∷ [])) }
{
    out.push_str("NAME")?;
    add_number(out, name.cell)?;
    out.push(' ')?;
    add_bytes(out, name.text.bytes())?;
    out.push('\n')
}

/// Adds the lines of names.
fn add_names(out: &mut String, names: &[FieldName]) -> Result<(), AllocError>
    requires { All HasAsciiText names.now }
    ensures { OnOk result (string_bytes out.new ≡ string_bytes out.old ++ lines_by name_text names.now) }
{
    for name in names {
        add_name(out, name)?;
    }
    Ok(())
}

/// The lemma that the words of a slice are words.
fn are_words(words: &[u32])
    ensures { All IsWord words.now }
{}

/// The listing of an image with its notes: a line for each code cell, then one for each static
/// word, then one for each mark, and then one for each name.
pub fn list(alloc: Global, noted: &Noted) -> Result<String, NoMemory>
    ensures listing { IfOk result (λ text. string_bytes text ≡ listing noted.now) }

    // It may be assembled, and reads as the image with these notes.
    ensures within { IfOk result (λ text. string_len text ≤ MOST_TEXT) }
    ensures reads_back { IfOk result (λ text. noted_of_text (string_bytes text) ≡ Ok noted.now) }
{
    let mut out = String::new(alloc);
    let image = noted.image();
    let notes = noted.notes();
    are_words(image.statics());
    add_code(&mut out, image.code())?;
    add_statics(&mut out, image.statics())?;
    add_marks(&mut out, &notes.marks)?;
    add_names(&mut out, &notes.names)?;
    Ok(out)
}
