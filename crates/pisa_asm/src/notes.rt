// The third pass: the notes, each of which fits the image with those before it.
ghost use Rattle.std.specs.Prelude.{◌≡◌, ◌≤◌, length, IfOk, IsTrue, MatchResult, Ok};
ghost use Rattle.pisa_isa.specs.Notes.{no_notes, fits};
ghost use Rattle.pisa_asm.specs.declared.assembler.TheConstants.{MOST_TEXT};
ghost use Rattle.pisa_asm.specs.Chain.{Refuses};
ghost use Rattle.pisa_asm.specs.Lines.{lines_of};
ghost use Rattle.pisa_asm.specs.Passes.{with_mark, with_field_name, if_fits, noted_item, noted_lines};

use crate::assembler::MOST_TEXT;
use crate::error::AsmError;
use crate::item::{Item, item_from};
use crate::label::after_labels;
use crate::line::{content, first_line};
use pisa_isa::{FieldName, Image, MOST_MARKS, Mark, Notes, fits, mark_fits};
use std::alloc::Global;

/// Notes that fit the image, followed by a mark.
fn with_mark(image: &Image, notes: Notes, mark: Mark, line: u32) -> Result<Notes, AsmError>
    requires { IsTrue (fits image.now notes) }
    ensures { MatchResult result
        (λ longer. if_fits line image.now (with_mark notes mark) ≡ Ok longer)
        (Refuses (if_fits line image.now (with_mark notes mark))) }
{
    let Notes { mut marks, names } = notes;
    let has_room = marks.len() < MOST_MARKS;
    let is_within = mark_fits(image.code().len() as u32, &mark);
    if !(has_room && is_within) {
        return Err(AsmError::BadNote { line });
    }
    marks.push(mark)?;
    Ok(Notes { marks, names })
}

/// Notes, followed by a name.
fn with_name(image: &Image, notes: Notes, name: FieldName, line: u32) -> Result<Notes, AsmError>
    ensures { MatchResult result
        (λ longer. if_fits line image.now (with_field_name notes name) ≡ Ok longer)
        (Refuses (if_fits line image.now (with_field_name notes name))) }
{
    let Notes { marks, mut names } = notes;
    names.push(name)?;
    let longer = Notes { marks, names };
    if fits(image, &longer) {
        Ok(longer)
    } else {
        Err(AsmError::BadNote { line })
    }
}

/// Notes that fit the image, followed by what comes after the labels of a line.
fn with_item(image: &Image, notes: Notes, item: Item, line: u32) -> Result<Notes, AsmError>
    requires { IsTrue (fits image.now notes) }
    ensures noted { MatchResult result
        (λ longer. noted_item line image.now notes item ≡ Ok longer)
        (Refuses (noted_item line image.now notes item)) }
    ensures fit { IfOk result (λ longer. IsTrue (fits image.now longer)) }
{
    match item {
        Item::Marked(mark) => with_mark(image, notes, mark, line),
        Item::Named(name) => with_name(image, notes, name, line),
        _ => Ok(notes),
    }
}

/// The notes of a text, which fit the image.
pub fn notes_of(alloc: Global, image: &Image, text: &[u8]) -> Result<Notes, AsmError>
    requires { length text.now ≤ MOST_TEXT }
    ensures noted { MatchResult result
        (λ notes. noted_lines 1 image.now no_notes (lines_of text.now) ≡ Ok notes)
        (Refuses (noted_lines 1 image.now no_notes (lines_of text.now))) }
    ensures fit { IfOk result (λ notes. IsTrue (fits image.now notes)) }
{
    let mut notes = Notes {
        marks: Vec::new(alloc),
        names: Vec::new(alloc),
    };
    let mut rest = text;
    let mut line = 1;
    while !rest.is_empty() {
        let (first, behind) = first_line(rest);
        let item = item_from(alloc, after_labels(content(first)), line)?;
        notes = with_item(image, notes, item, line)?;
        rest = behind;
        line += 1;
    }
    Ok(notes)
}
