// What is printed, compared with the expected text.
ghost use Rattle.std.specs.Prelude.{◌≡◌, ◌≤◌, ◌∷◌, ◌++◌, ◌+ℤ◌, ◌-ℤ◌, [], Some, None, List, ℕ, length, map, take, flat_map, string_bytes, option_map, option_copied, codes, if◌then◌else◌, is_ok, unwrap_or, is_some, IfOk, OnOk, OnErr};
ghost use Rattle.row_parts.specs.Pieces.{pieces, made_of};
ghost use Rattle.row_parts.specs.Digits.{signed, in_64_bits};
ghost use Rattle.row_parts.specs.Printed.{parts, end_parts, text_parts, number_parts, digits_named, digit_count, number_length, named_number, learned, fit, printed, value, valued_piece, valued_pieces, valued};
ghost use Rattle.row_parts.specs.Shown.{number_shown, part_shown};
ghost use Rattle.row_parts.specs.Faults.{Says, Adds};

use crate::digits::signed;
use crate::fault::Fault;
use crate::pieces::cut;
use crate::sums::added;
use crate::texts::{is_word, plain};
use std::alloc::{AllocError, Global};
use std::marker::Model;

/// Numbers that were printed, by their names, with their digits.
#[derive(Drop)]
pub struct Numbers {
    alloc: Global,
    list: Vec<Number>,
}

impl Model for Numbers {
    ghost use Rattle.std.specs.Prelude.{List, ℕ, map};
    ghost use Rattle.row_parts.specs.Shown.{number_shown};

    ghost Value = { List (List ℕ × List ℕ) };

    ghost view = { λ numbers. map number_shown numbers.list.items };
}

#[derive(Drop)]
struct Number {
    name: String,
    digits: Vec<u8>,
}

// A part of an expected text.
#[derive(Drop)]
enum Part {
    Text(Vec<u8>),
    Number(String),
    Any,
}

impl Numbers {
    /// No numbers.
    pub fn new(alloc: Global) -> Self
        ensures { result ≡ [] }
    {
        Numbers {
            alloc,
            list: Vec::new(alloc),
        }
    }

    fn digits_of(&self, name: &str) -> Option<&[u8]>
        ensures { option_copied result ≡ digits_named self.now name.now }
    {
        for number in &self.list {
            if number.name.as_str() == name {
                return Some(number.digits.as_slice());
            }
        }
        None
    }

    fn add(&mut self, name: &str, digits: &[u8]) -> Result<(), AllocError>
        ensures { self.new
            ≡ (if is_ok result then self.old ++ (name.now, digits.now) ∷ [] else self.old) }
    {
        let name = String::from_str(self.alloc, name)?;
        let digits = digits.to_vec(self.alloc)?;
        self.list.push(Number { name, digits })?;
        Ok(())
    }

    // How many there are.
    fn len(&self) -> usize
        ensures { result ≡ length self.now }
    {
        self.list.len()
    }

    // Leaves the first numbers.
    fn keep(&mut self, count: usize)
        ensures { self.new ≡ take count self.old }
    {
        self.list.truncate(count);
    }

    /// The text with its <NAME>s, <NAME+N>s and <NAME-N>s.
    pub fn filled(&self, text: &str) -> Result<String, Fault>
        ensures text { IfOk result (λ made. valued self.now text.now ≡ Some (string_bytes made)) }
        ensures difference { Says (if is_some (valued self.now text.now) then None
            else Some (codes "a number was not printed")) result }
    {
        let mut made = String::new(self.alloc);
        match cut(text, "<") {
            Some((first, rest)) => {
                made.push_str(first)?;
                self.add_all_numbers(&mut made, rest)?;
            }
            None => made.push_str(text)?,
        }
        Ok(made)
    }

    // Adds the pieces after a <.
    fn add_all_numbers(&self, made: &mut String, text: &str) -> Result<(), Fault>
        ensures { Adds (valued_pieces self.now (pieces (codes "<") text.now))
            (string_bytes made.old) (string_bytes made.new) result }
    {
        let mut rest = text;
        while let Some((piece, behind)) = cut(rest, "<") {
            self.add_number(made, piece)?;
            rest = behind;
        }
        self.add_number(made, rest)
    }

    // Adds a piece after a <.
    fn add_number(&self, made: &mut String, piece: &str) -> Result<(), Fault>
        ensures { Adds (valued_piece self.now piece.now) (string_bytes made.old)
            (string_bytes made.new) result }
    {
        match cut(piece, ">") {
            Some((name, rest)) => {
                let Some(value) = self.value(name) else {
                    return Err(Fault::Differs("a number was not printed"));
                };
                write!(made, "{value}")?;
                made.push_str(rest)?;
            }
            None => {
                made.push_str("<")?;
                made.push_str(piece)?;
            }
        }
        Ok(())
    }

    // The number of NAME, NAME+N or NAME-N, if it was printed.
    fn value(&self, text: &str) -> Option<i64>
        ensures { result ≡ value self.now text.now }
    {
        if let Some((name, more)) = cut(text, "+") {
            return added(self.printed(name)?, signed(more)?);
        }
        if let Some((name, less)) = cut(text, "-") {
            return taken(self.printed(name)?, signed(less)?);
        }
        self.printed(text)
    }

    fn printed(&self, name: &str) -> Option<i64>
        ensures { result ≡ printed self.now name.now }
    {
        value_of(self.digits_of(name)?)
    }

    /// Whether what was printed is the expected text, in which ... is any text and <NAME> a number,
    /// which is kept if all fits. Otherwise no number is kept. The only error is that memory ran
    /// out.
    pub fn fit(&mut self, wanted: &str, said: &[u8]) -> Result<bool, AllocError>
        ensures kept { self.new ≡ (if is_ok result
            then unwrap_or (fit (parts wanted.now) self.old said.now) self.old else self.old) }
        ensures fits { IfOk result
            (λ fits. fits ≡ is_some (fit (parts wanted.now) self.old said.now)) }
    {
        let parts = parts_of(self.alloc, wanted)?;
        let count = self.len();
        let answer = self.fit_parts(&parts, said);
        if !matches!(answer, Ok(true)) {
            self.keep(count);
        }
        answer
    }

    #[tactic(auto, using(crate::proofs::LongestDots::number_fits, crate::proofs::LongestDots::dots_fit, crate::proofs::LongestDots::dots_not))]
    // The first way of several is the one whose first ... is longest.
    fn fit_parts(&mut self, parts: &[Part], said: &[u8]) -> Result<bool, AllocError>
        ensures fits { IfOk result (λ fits. fit (map part_shown parts.now) self.old said.now
            ≡ (if fits then Some self.new else None)) }
        ensures kept { take (length self.old) self.new ≡ self.old }
    {
        match parts {
            [] => Ok(said.is_empty()),
            [part, rest @ ..] => match part {
                Part::Text(text) => {
                    if said.starts_with(text.as_slice()) {
                        self.fit_parts(rest, &said[text.len()..])
                    } else {
                        Ok(false)
                    }
                }
                Part::Number(name) => match self.left_behind(name.as_str(), said)? {
                    Some(left) => self.fit_parts(rest, left),
                    None => Ok(false),
                },
                Part::Any => {
                    let count = self.len();
                    let mut begin = said.len();
                    'ends: loop {
                        if self.fit_parts(rest, &said[begin..])? {
                            return Ok(true);
                        }
                        self.keep(count);
                        if begin == 0 {
                            return Ok(false);
                        }
                        begin -= 1;
                    }
                }
            },
        }
    }

    // What follows the number of a name, which is kept if it has none yet.
    fn left_behind<'a>(
        &mut self,
        name: &str,
        said: &'a [u8],
    ) -> Result<Option<&'a [u8]>, AllocError>
        ensures found { IfOk result (λ left. named_number self.old name.now said.now
            ≡ option_map (λ left. (self.new, left.now)) left) }
        ensures kept { take (length self.old) self.new ≡ self.old }
    {
        if let Some(digits) = self.digits_of(name) {
            return Ok(said.strip_prefix(digits));
        }
        let end = number_length(said);
        if end == 0 {
            return Ok(None);
        }
        self.add(name, &said[..end])?;
        Ok(Some(&said[end..]))
    }
}

// The number that digits write.
fn value_of(digits: &[u8]) -> Option<i64>
    ensures { result ≡ signed digits.now }
{
    match str::from_utf8(digits) {
        Ok(text) => signed(text),
        Err(_error) => None,
    }
}

// The difference of two numbers, if it has 64 bits.
fn taken(left: i64, right: i64) -> Option<i64>
    ensures { result ≡ in_64_bits (left -ℤ right) }
{
    left.checked_sub(right)
}

// The length of the number that a text begins with.
fn number_length(said: &[u8]) -> usize
    ensures value { result ≡ number_length said.now }
    ensures within { result ≤ length said.now }
{
    match said {
        [] => 0,
        [first, rest @ ..] => {
            if first.is_ascii_digit() || *first == b'-' {
                digit_count(rest) + 1
            } else {
                0
            }
        }
    }
}

// How many digits a text begins with.
fn digit_count(said: &[u8]) -> usize
    ensures value { result ≡ digit_count said.now }
    ensures within { result ≤ length said.now }
{
    let mut count = 0;
    for byte in said {
        if !byte.is_ascii_digit() {
            return count;
        }
        count += 1;
    }
    count
}

// The parts of an expected text.
fn parts_of(alloc: Global, wanted: &str) -> Result<Vec<Part>, AllocError>
    ensures { IfOk result (λ made. map part_shown made.items ≡ parts wanted.now) }
{
    let mut parts = Vec::new(alloc);
    match cut(wanted, "...") {
        Some((first, rest)) => {
            add_parts(alloc, &mut parts, first)?;
            add_ends(alloc, &mut parts, rest)?;
        }
        None => add_parts(alloc, &mut parts, wanted)?,
    }
    Ok(parts)
}

// Adds the parts of the pieces after a `...`, each with it.
fn add_ends(alloc: Global, parts: &mut Vec<Part>, text: &str) -> Result<(), AllocError>
    ensures { OnOk result (map part_shown parts.new.items
        ≡ map part_shown parts.old.items ++ flat_map end_parts (pieces (codes "...") text.now)) }
{
    let mut rest = text;
    while let Some((piece, behind)) = cut(rest, "...") {
        parts.push(Part::Any)?;
        add_parts(alloc, parts, piece)?;
        rest = behind;
    }
    parts.push(Part::Any)?;
    add_parts(alloc, parts, rest)
}

// Adds the parts of a text with no ... in it.
fn add_parts(alloc: Global, parts: &mut Vec<Part>, text: &str) -> Result<(), AllocError>
    ensures { OnOk result (map part_shown parts.new.items
        ≡ map part_shown parts.old.items ++ text_parts text.now) }
{
    match cut(text, "<") {
        Some((first, rest)) => {
            parts.push(Part::Text(plain(alloc, first)?))?;
            add_number_parts(alloc, parts, rest)
        }
        None => Ok(parts.push(Part::Text(plain(alloc, text)?))?),
    }
}

// Adds the parts of the pieces after a <.
fn add_number_parts(alloc: Global, parts: &mut Vec<Part>, text: &str) -> Result<(), AllocError>
    ensures { OnOk result (map part_shown parts.new.items
        ≡ map part_shown parts.old.items ++ flat_map number_parts (pieces (codes "<") text.now)) }
{
    let mut rest = text;
    while let Some((piece, behind)) = cut(rest, "<") {
        add_part(alloc, parts, piece)?;
        rest = behind;
    }
    add_part(alloc, parts, rest)
}

// Adds the parts of a piece after a <.
fn add_part(alloc: Global, parts: &mut Vec<Part>, piece: &str) -> Result<(), AllocError>
    ensures { OnOk result (map part_shown parts.new.items
        ≡ map part_shown parts.old.items ++ number_parts piece.now) }
{
    if let Some((name, rest)) = cut(piece, ">") {
        if is_word(name) {
            parts.push(Part::Number(String::from_str(alloc, name)?))?;
            parts.push(Part::Text(plain(alloc, rest)?))?;
            return Ok(());
        }
    }
    parts.push(Part::Text(plain(alloc, "<")?))?;
    parts.push(Part::Text(plain(alloc, piece)?))?;
    Ok(())
}
