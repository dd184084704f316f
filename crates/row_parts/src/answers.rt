// The result of a command, and what is expected of it.
ghost use Rattle.std.specs.Prelude.{◌≡◌, ◌∷◌, ◌++◌, ◌==◌, [], IfOk, OnOk, option_to_list, unwrap_or, is_ok, if◌then◌else◌, not};
ghost use Rattle.std.specs.List.{list_any};
ghost use Rattle.row_parts.specs.Pieces.{begins};
ghost use Rattle.row_parts.specs.Texts.{meant};
ghost use Rattle.row_parts.specs.Digits.{unsigned};
ghost use Rattle.row_parts.specs.Answers.{at_first, with_line, statuses, text_wanted, fitted, difference};
ghost use Rattle.row_parts.specs.Faults.{Says};

use crate::digits::status;
use crate::fault::{Fault, ensure};
use crate::pieces::cut;
use crate::printed::Numbers;
use crate::texts::plain;
use std::alloc::{AllocError, Global};
use std::marker::Model;

/// A command that has ended, and what is expected of its result.
#[derive(Drop)]
pub struct Answer {
    said: Vec<u8>,
    status: u8,
    /// The lines that are to be printed.
    wanted: String,
    /// How the text may not begin.
    unwanted: Vec<Vec<u8>>,
    /// The statuses of which one is to come.
    statuses: Vec<u8>,
}

impl Model for Answer {
    ghost use Rattle.std.specs.Prelude.{map, string_bytes};
    ghost use Rattle.row_parts.specs.Answers.{Expected};

    ghost Value = { Expected };

    ghost view = { λ answer. record {
      status = answer.status;
      said = answer.said.items;
      wanted = string_bytes answer.wanted;
      unwanted = map (λ text. text.items) answer.unwanted.items;
      statuses = answer.statuses.items;
    } };
}

impl Answer {
    /// A status and what was printed. Nothing printed and the status 0 are expected at first. The
    /// only error is that memory ran out.
    pub fn new(alloc: Global, status: u8, said: Vec<u8>) -> Result<Self, AllocError>
        ensures { IfOk result (λ answer. answer ≡ at_first status said.items) }
    {
        Ok(Answer {
            said,
            status,
            wanted: String::new(alloc),
            unwanted: Vec::new(alloc),
            statuses: vec![in alloc; 0]?,
        })
    }

    /// Wants a line more; a line of ... alone is any lines. If memory ran out, all is as before.
    pub fn want(&mut self, alloc: Global, line: &str) -> Result<(), AllocError>
        ensures { self.new ≡ (if is_ok result then with_line self.old line.now else self.old) }
    {
        let mut text = String::from_str(alloc, line)?;
        if line != "..." {
            text.push_str("\n")?;
        }
        self.wanted.push_str(text.as_str())
    }

    /// Wants a text that does not begin so. If memory ran out, all is as before.
    pub fn refuse(&mut self, alloc: Global, text: &str) -> Result<(), AllocError>
        ensures { self.new ≡ (if is_ok result
            then record self.old { unwanted = self.old.unwanted ++ meant text.now ∷ [] }
            else self.old) }
    {
        self.unwanted.push(plain(alloc, text)?)?;
        Ok(())
    }

    /// Wants one of these statuses, in place of 0. If memory ran out, all is as before.
    pub fn end_with(&mut self, alloc: Global, text: &str) -> Result<(), AllocError>
        ensures { self.new ≡ (if is_ok result
            then record self.old { statuses = statuses text.now } else self.old) }
    {
        self.statuses = statuses_of(alloc, text)?;
        Ok(())
    }

    /// Compares the result with what is expected of it. The numbers of a text that fits are kept,
    /// and after an error they are as before.
    pub fn settle(&self, numbers: &mut Numbers) -> Result<(), Fault>
        ensures difference { Says (difference self.now numbers.old) result }
        ensures numbers { numbers.new ≡ (if is_ok result
            then unwrap_or (fitted self.now numbers.old) numbers.old else numbers.old) }
    {
        ensure(self.has_status(), "the status is another one")?;
        ensure(self.begins_well(), "the output begins as it must not")?;
        let fits = numbers.fit(self.wanted(), self.said.as_slice())?;
        ensure(fits, "another text is printed")
    }

    // The text that is to be printed: any, where only its beginning is known.
    fn wanted(&self) -> &str
        ensures { result.now ≡ text_wanted self.now }
    {
        if self.wanted.is_empty() && !self.unwanted.is_empty() {
            "..."
        } else {
            self.wanted.as_str()
        }
    }

    fn has_status(&self) -> bool
        ensures { result ≡ list_any (λ status. status == self.now.status) self.now.statuses }
    {
        self.statuses.contains(&self.status)
    }

    fn begins_well(&self) -> bool
        ensures { result ≡ not (list_any (begins self.now.said) self.now.unwanted) }
    {
        for text in &self.unwanted {
            if self.said.as_slice().starts_with(text.as_slice()) {
                return false;
            }
        }
        true
    }
}

// The statuses that a text writes.
fn statuses_of(alloc: Global, text: &str) -> Result<Vec<u8>, AllocError>
    ensures { IfOk result (λ made. made.items ≡ statuses text.now) }
{
    let mut made = Vec::new(alloc);
    let mut rest = text;
    while let Some((piece, behind)) = cut(rest, " ") {
        add_status(&mut made, piece)?;
        rest = behind;
    }
    add_status(&mut made, rest)?;
    Ok(made)
}

// Adds the status that a text writes, if it writes one.
fn add_status(made: &mut Vec<u8>, text: &str) -> Result<(), AllocError>
    ensures { OnOk result (made.new.items
        ≡ made.old.items ++ option_to_list (unsigned 8 10 text.now)) }
{
    match status(text) {
        Some(status) => Ok(made.push(status)?),
        None => Ok(()),
    }
}
