// The first pass: labels, the number of code cells, static words.
ghost use Rattle.std.specs.Prelude.{◌≡◌, ◌≤◌, length, MatchResult, Ok, option_map};
ghost use Rattle.pisa_asm.specs.declared.assembler.TheConstants.{MOST_TEXT};
ghost use Rattle.pisa_asm.specs.Chain.{Refuses};
ghost use Rattle.pisa_asm.specs.Lines.{lines_of, content_of, line_words};
ghost use Rattle.pisa_asm.specs.LabelNames.{label_address};
ghost use Rattle.pisa_asm.specs.Passes.{Surveyed, no_lines, counted_item, surveyed_words, surveyed};

use crate::assembler::MOST_TEXT;
use crate::error::AsmError;
use crate::item::{Item, item_from};
use crate::label::{after_labels, note_labels, place_of};
use crate::line::{content, first_line};
use indexmap::IndexMap;
use pisa_isa::{MOST_CELLS, MOST_STATICS, Text};
use std::alloc::Global;
use std::marker::Model;

/// What the first pass knows of the lines so far.
#[derive(Drop)]
pub struct Survey {
    labels: IndexMap<Text, u32>,
    cells: u32,
    statics: Vec<u32>,
}

impl Model for Survey {
    ghost use Rattle.pisa_asm.specs.Passes.{Surveyed};

    ghost Value = { Surveyed };

    ghost view = { λ s. record {
      labels = s.labels.entries;
      cells = s.cells;
      statics = s.statics.items;
    } };
}

impl Survey {
    /// The survey of no lines.
    fn new(alloc: Global) -> Survey
        ensures { result ≡ no_lines }
    {
        Survey {
            labels: IndexMap::new(alloc),
            cells: 0,
            statics: Vec::new(alloc),
        }
    }

    /// The code address of the label of this name.
    pub fn place_of(&self, name: &Text) -> Option<u32>
        ensures { result ≡ label_address name.now self.now.labels }
    {
        place_of(&self.labels, name)
    }

    /// The static words that the lines give, in order.
    pub fn into_statics(self) -> Vec<u32>
        ensures { result.items ≡ self.statics }
    {
        self.statics
    }

    /// Counts what follows the labels of a line.
    fn count(&mut self, item: &Item, line: u32) -> Result<(), AsmError>
        ensures { MatchResult result
            (λ _. counted_item line self.old item.now ≡ Ok self.new)
            (Refuses (counted_item line self.old item.now)) }
    {
        match item {
            Item::Nothing | Item::Marked(_) | Item::Named(_) => Ok(()),
            Item::Code(given) => {
                if !given.cell.is_one_to_one() {
                    return Err(AsmError::NotOneToOne { line });
                }
                if self.cells as usize >= MOST_CELLS {
                    return Err(AsmError::TooManyCells { line });
                }
                self.cells += 1;
                Ok(())
            }
            Item::Static(word) => {
                if self.statics.len() >= MOST_STATICS {
                    return Err(AsmError::TooManyCells { line });
                }
                self.statics.push(*word)?;
                Ok(())
            }
        }
    }

    /// Adds a line.
    fn add_line(&mut self, alloc: Global, text: &[u8], line: u32) -> Result<(), AsmError>
        ensures { MatchResult result
            (λ _. surveyed_words line self.old (line_words (content_of text.now)) ≡ Ok self.new)
            (Refuses (surveyed_words line self.old (line_words (content_of text.now)))) }
    {
        let content = content(text);
        let item = item_from(alloc, after_labels(content), line)?;
        note_labels(alloc, &mut self.labels, content, self.cells, line)?;
        self.count(&item, line)
    }
}

/// Reads a text once, for its labels and its static words.
pub fn survey_of(alloc: Global, text: &[u8]) -> Result<Survey, AsmError>
    requires { length text.now ≤ MOST_TEXT }
    ensures { MatchResult result
        (λ survey. surveyed 1 no_lines (lines_of text.now) ≡ Ok survey)
        (Refuses (surveyed 1 no_lines (lines_of text.now))) }
{
    let mut survey = Survey::new(alloc);
    let mut rest = text;
    let mut line = 1;
    while !rest.is_empty() {
        let (first, behind) = first_line(rest);
        survey.add_line(alloc, first, line)?;
        rest = behind;
        line += 1;
    }
    Ok(survey)
}
