// A row: files, commands, and what they print, answer and leave.
use crate::answering::respond;
use row_parts::{Answer, Fault, Numbers, ensure, files, holds, is_word, words};
use rpp_command::MemoryShelf;
use std::alloc::Global;

/// Runs a row, and says how it differs from what its lines expect.
pub fn run_row(alloc: Global, lines: &[String]) -> Result<(), Fault> {
    let mut row = Row {
        alloc,
        shelf: MemoryShelf::new(alloc, Vec::new(alloc), Vec::new(alloc)),
        numbers: Numbers::new(alloc),
        answer: None,
        has_run: false,
    };
    for line in lines {
        row.take(line.as_str())?;
    }
    row.settle()?;
    ensure(row.has_run, "it has no command")
}

// A row as it runs: its files, the numbers that were printed, and the last answer.
#[derive(Drop)]
struct Row {
    alloc: Global,
    shelf: MemoryShelf,
    numbers: Numbers,
    answer: Option<Answer>,
    has_run: bool,
}

impl Row {
    // Does what a line says.
    fn take(&mut self, line: &str) -> Result<(), Fault> {
        if line == "$" {
            return self.run("", false);
        }
        if let Some(text) = line.strip_prefix("$ ") {
            return self.run(text, true);
        }
        if line.starts_with('>') || line.starts_with("= ") || line.starts_with("unlike ") {
            return self.want(line);
        }
        if let Some(text) = line.strip_prefix("if ") {
            self.settle()?;
            return self.compare_numbers(text);
        }
        self.take_files(line)
    }

    // Does what a line on files says.
    fn take_files(&mut self, line: &str) -> Result<(), Fault> {
        if let Some((name, other, changes)) = files::copying(line) {
            self.settle()?;
            return files::copy(self.alloc, &mut self.shelf, name, other, changes);
        }
        let Some((how, rest)) = line.split_once(' ') else {
            return self.take_text("file", line);
        };
        if how == "none" || how == "same" || how == "size" {
            self.settle()?;
        }
        match how {
            "none" => files::look_for_none(&self.shelf, rest),
            "same" => files::look_for_same(&self.shelf, rest),
            "size" => files::look_for_size(&self.shelf, rest),
            "is" | "begins" | "ends" => self.take_text(how, rest),
            _ => self.take_text("file", line),
        }
    }

    // Writes a file, or compares one that a command has left.
    fn take_text(&mut self, how: &str, line: &str) -> Result<(), Fault> {
        let Some((name, text)) = line.split_once(':') else {
            return Err(Fault::Differs("a line is none of a row"));
        };
        ensure(is_word(name), "a line has no name of a file")?;
        let text = text.strip_prefix(' ').unwrap_or(text);
        if how == "file" {
            return files::write(self.alloc, &mut self.shelf, name, text);
        }
        self.settle()?;
        files::compare(self.alloc, &self.shelf, how, name, text)
    }

    // Runs a command.
    fn run(&mut self, text: &str, has_words: bool) -> Result<(), Fault> {
        self.settle()?;
        let text = self.numbers.filled(text)?;
        let mut words = words(self.alloc, text.as_str())?;
        if !has_words {
            words.clear();
        }
        let Ok((status, said)) = respond(self.alloc, &words, &mut self.shelf) else {
            return Err(Fault::NoMemory);
        };
        self.answer = Some(Answer::new(self.alloc, status, said)?);
        self.has_run = true;
        Ok(())
    }

    // Wants what a line says of the last answer.
    fn want(&mut self, line: &str) -> Result<(), Fault> {
        let Some(answer) = &mut self.answer else {
            return Err(Fault::Differs("a line has no command before it"));
        };
        if let Some(statuses) = line.strip_prefix("= ") {
            return Ok(answer.end_with(self.alloc, statuses)?);
        }
        if let Some(text) = line.strip_prefix("unlike ") {
            return Ok(answer.refuse(self.alloc, text)?);
        }
        Ok(answer.want(self.alloc, line.strip_prefix("> ").unwrap_or(""))?)
    }

    // Compares the last result with what is expected of it.
    fn settle(&mut self) -> Result<(), Fault> {
        match self.answer.take() {
            Some(answer) => answer.settle(&mut self.numbers),
            None => Ok(()),
        }
    }

    // Compares sums of numbers that were printed.
    fn compare_numbers(&self, text: &str) -> Result<(), Fault> {
        let text = self.numbers.filled(text)?;
        ensure(
            holds(text.as_str()) == Some(true),
            "a relation does not hold",
        )
    }
}
