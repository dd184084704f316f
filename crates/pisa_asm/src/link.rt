// The second pass: the code, with labels resolved to offsets.
ghost use Rattle.std.specs.Prelude.{◌≡◌, ◌≤◌, ◌<◌, ◌^◌, ◌+◌, length, vec_len, [], MatchResult, Ok};
ghost use Rattle.pisa_asm.specs.declared.assembler.TheConstants.{MOST_TEXT};
ghost use Rattle.pisa_asm.specs.Chain.{Refuses, and_then};
ghost use Rattle.pisa_asm.specs.Lines.{lines_of, content_of, line_words};
ghost use Rattle.pisa_asm.specs.LabelNames.{after_labels};
ghost use Rattle.pisa_asm.specs.Items.{item_from};
ghost use Rattle.pisa_asm.specs.Passes.{resolved_cell, linked_item, linked_cells};

use crate::assembler::MOST_TEXT;
use crate::error::AsmError;
use crate::item::{Item, item_from};
use crate::label::after_labels;
use crate::line::{content, first_line};
use crate::operand::Given;
use crate::survey::Survey;
use pisa_isa::{Cell, wrap_sub};
use std::alloc::Global;

/// An instruction at a code address, with its offset if a label gives it.
fn resolved(survey: &Survey, at: u32, given: &Given) -> Option<Cell>
    ensures { result ≡ resolved_cell survey.now.labels at given.now }
{
    match &given.target {
        None => Some(given.cell),
        Some(name) => match survey.place_of(name) {
            None => None,
            Some(place) => Some(Cell {
                imm: wrap_sub(place, at),
                ..given.cell
            }),
        },
    }
}

/// Adds what follows the labels of a line to the code.
fn add_item(survey: &Survey, code: &mut Vec<Cell>, item: &Item, line: u32) -> Result<(), AsmError>
    requires { vec_len code.old < 2 ^ 32 }
    ensures added { MatchResult result
        (λ _. linked_item line survey.now.labels code.old.items item.now ≡ Ok code.new.items)
        (Refuses (linked_item line survey.now.labels code.old.items item.now)) }
    ensures at_most_one { vec_len code.new ≤ vec_len code.old + 1 }
{
    match item {
        Item::Code(given) => match resolved(survey, code.len() as u32, given) {
            None => Err(AsmError::UnknownLabel { line }),
            Some(cell) => {
                code.push(cell)?;
                Ok(())
            }
        },
        _ => Ok(()),
    }
}

/// Reads a text again, with its labels known, into the cells of its code.
pub fn link(alloc: Global, survey: &Survey, text: &[u8]) -> Result<Vec<Cell>, AsmError>
    requires { length text.now ≤ MOST_TEXT }
    ensures { MatchResult result
        (λ code. linked_cells 1 survey.now.labels [] (lines_of text.now) ≡ Ok code.items)
        (Refuses (linked_cells 1 survey.now.labels [] (lines_of text.now))) }
{
    let mut code = Vec::new(alloc);
    let mut rest = text;
    let mut line = 1;
    while !rest.is_empty() {
        let (first, behind) = first_line(rest);
        let item = item_from(alloc, after_labels(content(first)), line)?;
        add_item(survey, &mut code, &item, line)?;
        rest = behind;
        line += 1;
    }
    Ok(code)
}
