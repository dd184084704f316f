// The rows of files: paragraphs, and tables of rows.
use crate::row::run_row;
use row_parts::{Names, filled};
use std::alloc::{AllocError, Global};

// The line of rows that need files on a disk: folders in the place of files, or a long run.
const ON_DISK: &str = "on disk";

/// How many rows ran, and the lines on those that differ.
#[derive(Drop)]
pub struct Tables {
    alloc: Global,
    rows: u64,
    differing: u64,
    lines: String,
}

// A line of a paragraph, and its number in the file.
#[derive(Clone, Copy)]
struct Line<'a> {
    number: usize,
    text: &'a str,
}

impl Tables {
    pub fn new(alloc: Global) -> Self {
        Tables {
            alloc,
            rows: 0,
            differing: 0,
            lines: String::new(alloc),
        }
    }

    /// The lines on the rows that differ, and how many rows there were.
    pub fn report(&self, alloc: Global) -> Result<String, AllocError> {
        let lines = self.lines.as_str();
        let rows = self.rows;
        let differing = self.differing;
        if differing == 0 {
            format!(in alloc; "{lines}{rows} rows, none differs\n")
        } else {
            format!(in alloc; "{lines}{rows} rows, {differing} differ\n")
        }
    }

    /// Runs the rows of a file.
    pub fn run(&mut self, file: &str, text: &str) -> Result<(), AllocError> {
        let mut names = Names::new(self.alloc)?;
        let mut paragraph = Vec::new(self.alloc);
        for (at, line) in text.split('\n').enumerate() {
            if line.starts_with('#') {
                continue;
            }
            if let Some(named) = line.strip_prefix("let ") {
                let (name, text) = named.split_once(": ").unwrap_or((named, ""));
                let text = names.filled(text)?;
                names.add(name, text.as_str())?;
            } else if line.is_empty() {
                self.run_paragraph(file, &paragraph, &mut names)?;
                paragraph.clear();
            } else {
                let number = at.saturating_add(1);
                paragraph.push(Line { number, text: line })?;
            }
        }
        self.run_paragraph(file, &paragraph, &mut names)
    }

    // Runs the rows of a paragraph: one, or those of the table after the line `rows:`.
    fn run_paragraph(
        &mut self,
        file: &str,
        paragraph: &[Line<'_>],
        names: &mut Names,
    ) -> Result<(), AllocError> {
        let mut lines = Vec::new(self.alloc);
        let mut is_table = false;
        for line in paragraph {
            if line.text == ON_DISK {
                return Ok(());
            }
            if is_table {
                self.run_rows_of(file, *line, &lines, names)?;
            } else if line.text == "rows:" {
                is_table = true;
            } else {
                lines.push(line.text)?;
            }
        }
        match paragraph.first() {
            Some(first) if !is_table => self.run_one(file, first.number, &lines, names),
            _ => Ok(()),
        }
    }

    // Runs the rows of a line of a table: one, or for 2..5 one for each number from 2 to 5.
    fn run_rows_of(
        &mut self,
        file: &str,
        line: Line<'_>,
        lines: &[&str],
        names: &mut Names,
    ) -> Result<(), AllocError> {
        let Some((first, last)) = range(line.text) else {
            return self.run_fields(file, line, lines, names);
        };
        for number in first..=last {
            let text = format!(in self.alloc; "{number}")?;
            let line = Line {
                number: line.number,
                text: text.as_str(),
            };
            self.run_fields(file, line, lines, names)?;
        }
        Ok(())
    }

    // Runs the row of a line of a table, whose fields take the places of {1}, {2} and so on.
    fn run_fields(
        &mut self,
        file: &str,
        line: Line<'_>,
        lines: &[&str],
        names: &mut Names,
    ) -> Result<(), AllocError> {
        let count = names.len();
        for (at, field) in line.text.split(" => ").enumerate() {
            let number = at.saturating_add(1);
            let name = format!(in self.alloc; "{number}")?;
            names.add(name.as_str(), field)?;
        }
        self.run_one(file, line.number, lines, names)?;
        names.keep(count);
        Ok(())
    }

    // Runs a row.
    fn run_one(
        &mut self,
        file: &str,
        number: usize,
        lines: &[&str],
        names: &Names,
    ) -> Result<(), AllocError> {
        let filled = filled(self.alloc, lines, names)?;
        self.rows = self.rows.saturating_add(1);
        if let Err(why) = run_row(self.alloc, &filled) {
            self.differing = self.differing.saturating_add(1);
            let why = why.text();
            write!(self.lines, "{file}:{number}: {why}\n")?;
        }
        Ok(())
    }
}

// The numbers of 2..5.
fn range(text: &str) -> Option<(u32, u32)> {
    let (first, last) = text.split_once("..")?;
    Some((first.parse::<u32>().ok()?, last.parse::<u32>().ok()?))
}
