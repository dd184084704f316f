// Marks on the cells of a fragment, however many these are.
ghost use Rattle.std.specs.Prelude.{◌≡◌, ◌+◌, ◌^◌, ◌≤◌, ◌++◌, OnOk};
ghost use Rattle.paired_code.specs.Code.{AllWithin, moved_on, shift};

use code_conventions::{MOST_CELLS, Mark, NoMemory};
use std::marker::Model;

/// The cells from `first` to before `end` of a fragment, and the place of the source that made
/// them.
#[derive(Drop)]
pub struct Span {
    first: usize,
    end: usize,
    at: u32,
}

impl Model for Span {
    ghost use Rattle.code_conventions.specs.pisa_isa.declared.notes.Mark.{Mark};

    ghost Value = { Mark };

    ghost view = { λ s. record { first = s.first; end = s.end; at = s.at } };
}

impl Span {
    /// The number of the first cell that it covers.
    pub fn first(&self) -> usize
        ensures { result ≡ self.now.first }
    {
        self.first
    }

    /// The cell after its last one.
    pub fn end(&self) -> usize
        ensures { result ≡ self.now.end }
    {
        self.end
    }

    /// The place that made them.
    pub fn at(&self) -> u32
        ensures { result ≡ self.now.at }
    {
        self.at
    }
}

pub(crate) fn cover(first: usize, end: usize, at: u32) -> Span
    ensures { result ≡ record { first = first; end = end; at = at } }
{
    Span { first, end, at }
}

// The spans of a part that begins at cell `by`.
pub(crate) fn put_spans(spans: &mut Vec<Span>, more: &[Span], by: usize) -> Result<(), NoMemory>
    requires { AllWithin (2 ^ 63) (shift by more.now) }
    ensures { OnOk result (spans.new.items ≡ spans.old.items ++ shift by more.now) }
{
    for part in more {
        spans.push(moved_span(part, by))?;
    }
    Ok(())
}

// The same as marks of an image.
pub(crate) fn put_marks(marks: &mut Vec<Mark>, more: &[Span], by: u32) -> Result<(), NoMemory>
    requires { AllWithin MOST_CELLS (shift by more.now) }
    ensures { OnOk result (marks.new.items ≡ marks.old.items ++ shift by more.now) }
{
    for part in more {
        marks.push(moved_mark(part, by))?;
    }
    Ok(())
}

fn moved_span(part: &Span, by: usize) -> Span
    requires first { by + part.now.first ≤ 2 ^ 63 }
    requires end { by + part.now.end ≤ 2 ^ 63 }
    ensures { result ≡ moved_on by part.now }
{
    cover(by + part.first(), by + part.end(), part.at())
}

fn moved_mark(part: &Span, by: u32) -> Mark
    requires first { by + part.now.first ≤ MOST_CELLS }
    requires end { by + part.now.end ≤ MOST_CELLS }
    ensures { result ≡ moved_on by part.now }
{
    Mark {
        first: by + part.first() as u32,
        end: by + part.end() as u32,
        at: part.at(),
    }
}
