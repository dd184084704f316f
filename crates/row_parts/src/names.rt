// Texts with names, which rows write as {NAME}.
ghost use Rattle.std.specs.Prelude.{◌≡◌, ◌∷◌, ◌++◌, [], List, ℕ, length, map, take, string_bytes, option_copied, flat_map, option_map, codes, if◌then◌else◌, is_ok, IfOk, OnOk};
ghost use Rattle.std.specs.Str.{bytes_eq};
ghost use Rattle.row_parts.specs.Pieces.{pieces, made_of};
ghost use Rattle.row_parts.specs.Names.{text_named, filled_piece, filled_once, filled_times, copying, copied_piece, filled, two_digits, numbered_piece, numbered, copies, continued, filled_lines};

use crate::digits::count;
use crate::pieces::{after, begins, cut, cut_last, ends};
use std::alloc::{AllocError, Global};
use std::marker::Model;

// A text that holds names of texts that hold names is filled so many times.
const MOST_ROUNDS: u32 = 9;

#[derive(Drop)]
struct Named {
    name: String,
    text: String,
}

/// Texts with names; of two with one name the later one counts.
#[derive(Drop)]
pub struct Names {
    alloc: Global,
    list: Vec<Named>,
}

impl Model for Names {
    ghost use Rattle.std.specs.Prelude.{List, ℕ, map};
    ghost use Rattle.row_parts.specs.Named.{named_text};

    ghost Value = { List (List ℕ × List ℕ) };

    ghost view = { λ names. map named_text names.list.items };
}

impl Names {
    /// No names but NONE, the empty text.
    pub fn new(alloc: Global) -> Result<Self, AllocError>
        ensures { IfOk result (λ names. names ≡ (codes "NONE", []) ∷ []) }
    {
        let mut names = Names {
            alloc,
            list: Vec::new(alloc),
        };
        names.add("NONE", "")?;
        Ok(names)
    }

    /// Puts a text with its name last. If memory ran out, all is as before.
    pub fn add(&mut self, name: &str, text: &str) -> Result<(), AllocError>
        ensures { self.new
            ≡ (if is_ok result then self.old ++ (name.now, text.now) ∷ [] else self.old) }
    {
        let name = String::from_str(self.alloc, name)?;
        let text = String::from_str(self.alloc, text)?;
        self.list.push(Named { name, text })?;
        Ok(())
    }

    /// How many there are.
    pub fn len(&self) -> usize
        ensures { result ≡ length self.now }
    {
        self.list.len()
    }

    /// Leaves the first names.
    pub fn keep(&mut self, count: usize)
        ensures { self.new ≡ take count self.old }
    {
        self.list.truncate(count);
    }

    fn text_of(&self, name: &str) -> Option<&str>
        ensures { option_copied result ≡ text_named self.now name.now }
    {
        let mut found = None;
        for named in &self.list {
            if named.name.as_str() == name {
                found = Some(named.text.as_str());
            }
        }
        found
    }

    /// The text with its {NAME}s and its {(text)*COUNT}s. The only error is that memory ran out.
    pub fn filled(&self, text: &str) -> Result<String, AllocError>
        ensures { IfOk result (λ made. string_bytes made ≡ filled self.now text.now) }
    {
        let made = self.filled_times(text)?;
        with_copies(self.alloc, made.as_str())
    }

    fn filled_times(&self, text: &str) -> Result<String, AllocError>
        ensures { IfOk result (λ made. string_bytes made ≡ filled_times 9 self.now text.now) }
    {
        let mut made = String::from_str(self.alloc, text)?;
        let mut rounds = MOST_ROUNDS;
        while rounds > 0 {
            let next = self.filled_once(made.as_str())?;
            if is_same(next.as_str(), made.as_str()) {
                return Ok(next);
            }
            made = next;
            rounds -= 1;
        }
        Ok(made)
    }

    fn filled_once(&self, text: &str) -> Result<String, AllocError>
        ensures { IfOk result (λ made. string_bytes made ≡ filled_once self.now text.now) }
    {
        let mut made = String::new(self.alloc);
        match cut(text, "{") {
            Some((first, rest)) => {
                made.push_str(first)?;
                self.add_all_filled(&mut made, rest)?;
            }
            None => made.push_str(text)?,
        }
        Ok(made)
    }

    // Adds the pieces after a {.
    fn add_all_filled(&self, made: &mut String, text: &str) -> Result<(), AllocError>
        ensures { OnOk result (string_bytes made.new ≡ string_bytes made.old
            ++ flat_map (filled_piece self.now) (pieces (codes "{") text.now)) }
    {
        let mut rest = text;
        while let Some((piece, behind)) = cut(rest, "{") {
            self.add_filled(made, piece)?;
            rest = behind;
        }
        self.add_filled(made, rest)
    }

    // Adds a piece after a {.
    fn add_filled(&self, made: &mut String, piece: &str) -> Result<(), AllocError>
        ensures { OnOk result (string_bytes made.new
            ≡ string_bytes made.old ++ filled_piece self.now piece.now) }
    {
        if let Some((name, rest)) = cut(piece, "}") {
            if let Some(text) = self.text_of(name) {
                made.push_str(text)?;
                return made.push_str(rest);
            }
        }
        made.push_str("{")?;
        made.push_str(piece)
    }
}

fn is_same(left: &str, right: &str) -> bool
    ensures { result ≡ bytes_eq left.now right.now }
{
    left == right
}

// The text with its {(text)*COUNT}s.
fn with_copies(alloc: Global, text: &str) -> Result<String, AllocError>
    ensures { IfOk result (λ made. string_bytes made
        ≡ made_of (λ piece. piece) copied_piece (pieces (codes "{(") text.now)) }
{
    let mut made = String::new(alloc);
    match cut(text, "{(") {
        Some((first, rest)) => {
            made.push_str(first)?;
            add_all_copied(&mut made, rest)?;
        }
        None => made.push_str(text)?,
    }
    Ok(made)
}

// Adds the pieces after a {(.
fn add_all_copied(made: &mut String, text: &str) -> Result<(), AllocError>
    ensures { OnOk result (string_bytes made.new ≡ string_bytes made.old
        ++ flat_map copied_piece (pieces (codes "{(") text.now)) }
{
    let mut rest = text;
    while let Some((piece, behind)) = cut(rest, "{(") {
        add_copied(made, piece)?;
        rest = behind;
    }
    add_copied(made, rest)
}

// Adds a piece after a {(.
fn add_copied(made: &mut String, piece: &str) -> Result<(), AllocError>
    ensures { OnOk result (string_bytes made.new
        ≡ string_bytes made.old ++ copied_piece piece.now) }
{
    if let Some((text, count, rest)) = copying(piece) {
        add_copies(made, text, count)?;
        return made.push_str(rest);
    }
    made.push_str("{(")?;
    made.push_str(piece)
}

// The text, the number of copies and the rest of a piece `text)*COUNT}rest`.
fn copying(piece: &str) -> Option<(&str, u32, &str)>
    ensures { option_map (λ parts. (parts.0.now, parts.1, parts.2.now)) result
        ≡ copying piece.now }
{
    let (copied, rest) = cut(piece, "}")?;
    let (text, number) = cut_last(copied, ")*")?;
    Some((text, count(number)?, rest))
}

// Adds copies of a text, in which ## is the number of the copy.
fn add_copies(made: &mut String, text: &str, count: u32) -> Result<(), AllocError>
    ensures { OnOk result (string_bytes made.new
        ≡ string_bytes made.old ++ copies text.now count) }
{
    for number in 0..count {
        add_numbered(made, text, number)?;
    }
    Ok(())
}

// Adds a text, in which ## is a number.
fn add_numbered(made: &mut String, text: &str, number: u32) -> Result<(), AllocError>
    ensures { OnOk result (string_bytes made.new
        ≡ string_bytes made.old ++ numbered number text.now) }
{
    match cut(text, "##") {
        Some((first, rest)) => {
            made.push_str(first)?;
            add_all_numbered(made, rest, number)
        }
        None => made.push_str(text),
    }
}

// Adds the pieces after a ##.
fn add_all_numbered(made: &mut String, text: &str, number: u32) -> Result<(), AllocError>
    ensures { OnOk result (string_bytes made.new ≡ string_bytes made.old
        ++ flat_map (numbered_piece number) (pieces (codes "##") text.now)) }
{
    let mut rest = text;
    while let Some((piece, behind)) = cut(rest, "##") {
        add_number(made, number)?;
        made.push_str(piece)?;
        rest = behind;
    }
    add_number(made, number)?;
    made.push_str(rest)
}

// Adds a number in two digits or more.
fn add_number(made: &mut String, number: u32) -> Result<(), AllocError>
    ensures { OnOk result (string_bytes made.new ≡ string_bytes made.old ++ two_digits number) }
{
    if number < 10 {
        made.push_str("0")?;
    }
    write!(made, "{number}")
}

/// The lines of a row with their names filled. The lines `| text` go to the line before them. The
/// only error is that memory ran out.
pub fn filled(alloc: Global, lines: &[&str], names: &Names) -> Result<Vec<String>, AllocError>
    ensures { IfOk result (λ made. map string_bytes made.items
        ≡ filled_lines names.now (map (λ line. line.now) lines.now)) }
{
    let mut made = Vec::new(alloc);
    let [first, rest @ ..] = lines else {
        return Ok(made);
    };
    let mut text = names.filled(first)?;
    for line in rest {
        let next = names.filled(line)?;
        if begins(line, "|") {
            add_line(&mut text, next.as_str())?;
        } else {
            made.push(text)?;
            text = next;
        }
    }
    made.push(text)?;
    Ok(made)
}

// Adds the text of a line `| text` to the line of its file.
fn add_line(last: &mut String, line: &str) -> Result<(), AllocError>
    ensures { OnOk result (string_bytes last.new ≡ continued (string_bytes last.old) line.now) }
{
    if ends(last.as_str(), ":") {
        last.push_str(" ")?;
    }
    if let Some(text) = after(line, "| ") {
        last.push_str(text)?;
    }
    last.push_str("\n")
}
