// Notes of images: the statements that code cells belong to, and the names of data cells.
ghost use Rattle.std.specs.Prelude.{◌≡◌, ◌≤◌, ◌∷◌, List, IfOk, IsTrue, map, length};
ghost use Rattle.std.specs.List.{list_all, All};
ghost use Rattle.pisa_isa.specs.Image.{Segments, IsImage};
ghost use Rattle.rpp_words.specs.Names.{is_name_byte};
ghost use Rattle.pisa_isa.specs.Notes.{NoteLists, NotedImage, is_name, mark_fits, marks_fit, name_fits, names_fit, fits, is_within, turned_mark, turned_notes};

use crate::image::Image;
use rpp_words::{FIXED_CELLS, NoMemory, is_name_byte};
use std::alloc::Global;
use std::marker::Model;

/// The most marks of an image.
pub const MOST_MARKS: usize = 20_000;

/// The last place of a source, in bytes.
pub const LAST_PLACE: u32 = 1_048_575;

/// The most names of an image.
pub const MOST_NAMES: usize = 64;

/// The most bytes of all names of an image together.
pub const MOST_NAME_BYTES: u32 = 1_048_576;

/// The code cells from `first` to before `end` belong to the statement at the place `at` of the source.
#[derive(Clone, Copy, PartialEq, Eq, Debug)]
pub struct Mark {
    /// The first of the cells.
    pub first: u32,
    /// The cell after the last of them.
    pub end: u32,
    /// The place of the statement, in bytes from the start of the source.
    pub at: u32,
}

/// The text of a name, seen as the list of its bytes.
#[derive(Drop)]
pub struct NoteText {
    stored: Vec<u8>,
}

impl Model for NoteText {
    ghost use Rattle.std.specs.Prelude.{List, ℕ};

    ghost Value = { List ℕ };

    ghost view = { λ t. t.stored.items };
}

impl NoteText {
    /// The text of these bytes.
    pub fn of(alloc: Global, bytes: &[u8]) -> Result<NoteText, NoMemory>
        ensures { IfOk result (λ text. text ≡ bytes.now) }
    {
        Ok(NoteText {
            stored: bytes.to_vec(alloc)?,
        })
    }

    /// The bytes of the text.
    pub fn bytes(&self) -> &[u8]
        ensures { result.now ≡ self.now }
    {
        &self.stored
    }
}

/// A data cell with the name of the field that it holds.
#[derive(Drop)]
pub struct FieldName {
    /// The number of the data cell.
    pub cell: u32,
    /// The name.
    pub text: NoteText,
}

impl FieldName {
    /// An equal name of the same cell.
    fn copy(&self, alloc: Global) -> Result<FieldName, NoMemory>
        ensures { IfOk result (λ name. name ≡ self.now) }
    {
        Ok(FieldName {
            cell: self.cell,
            text: NoteText::of(alloc, self.text.bytes())?,
        })
    }
}

/// The notes of an image in addition to its cells.
#[derive(Drop)]
pub struct Notes {
    /// The statements of its code cells.
    pub marks: Vec<Mark>,
    /// The names of its data cells.
    pub names: Vec<FieldName>,
}

impl Model for Notes {
    ghost use Rattle.pisa_isa.specs.Notes.{NoteLists};

    ghost Value = { NoteLists };

    ghost view = { λ n. record { marks = n.marks.items; names = n.names.items } };
}

/// An image with notes that fit it.
#[derive(Drop)]
pub struct Noted {
    image: Image,
    notes: Notes,
}

impl Model for Noted {
    ghost use Rattle.std.specs.Prelude.{IsTrue};
    ghost use Rattle.pisa_isa.specs.Notes.{NotedImage, fits};

    ghost Value = { NotedImage };

    ghost view = { λ n. record { image = n.image; notes = n.notes } };

    ghost invariant = { λ n. IsTrue (fits n.image n.notes) };
}

fn are_name_bytes(bytes: &[u8]) -> bool
    ensures { result ≡ list_all is_name_byte bytes.now }
{
    bytes.iter().all(|byte| is_name_byte(*byte))
}

/// Whether these bytes are a name.
pub fn is_name(bytes: &[u8]) -> bool
    ensures { result ≡ is_name bytes.now }
{
    match bytes {
        [] => false,
        [first, rest @ ..] => first.is_ascii_alphabetic() && are_name_bytes(rest),
    }
}

/// Whether a mark fits code of so many cells.
pub fn mark_fits(cells: u32, mark: &Mark) -> bool
    ensures { result ≡ mark_fits cells mark.now }
{
    mark.first <= mark.end && mark.end <= cells && mark.at <= LAST_PLACE
}

fn each_fits(cells: u32, marks: &[Mark]) -> bool
    ensures { result ≡ list_all (mark_fits cells) marks.now }
{
    marks.iter().all(|mark| mark_fits(cells, mark))
}

fn marks_fit(cells: u32, marks: &[Mark]) -> bool
    ensures { result ≡ marks_fit cells marks.now }
{
    let each_fits = each_fits(cells, marks);
    marks.len() <= MOST_MARKS && each_fits
}

/// Whether a name fits so many static cells, if the names have so many bytes left.
pub fn name_fits(statics: u32, left: u32, name: &FieldName) -> bool
    ensures { result ≡ name_fits statics left name.now }
{
    let bytes = name.text.bytes();
    FIXED_CELLS <= name.cell
        && name.cell - FIXED_CELLS < statics
        && bytes.len() <= left as usize
        && is_name(bytes)
}

fn names_fit(statics: u32, names: &[FieldName]) -> bool
    ensures { result ≡ names_fit statics MOST_NAME_BYTES names.now }
{
    let mut left = MOST_NAME_BYTES;
    for name in names {
        if !name_fits(statics, left, name) {
            return false;
        }
        left -= name.text.bytes().len() as u32;
    }
    true
}

/// Whether these notes can be kept with the image. It takes no memory.
pub fn fits(image: &Image, notes: &Notes) -> bool
    ensures { result ≡ fits image.now notes.now }
{
    marks_fit(image.code().len() as u32, &notes.marks)
        && notes.names.len() <= MOST_NAMES
        && names_fit(image.statics().len() as u32, &notes.names)
}

impl Notes {
    /// The notes of the inverse image, of so many code cells.
    pub fn turned(&self, alloc: Global, code: u32) -> Result<Notes, NoMemory>
        requires { All (λ m. IsTrue (is_within code m)) self.now.marks }
        ensures { IfOk result (λ notes. notes ≡ turned_notes code self.now) }
    {
        Ok(Notes {
            marks: turned_marks(alloc, code, &self.marks)?,
            names: copied_names(alloc, &self.names)?,
        })
    }
}

fn turned_marks(alloc: Global, code: u32, marks: &[Mark]) -> Result<Vec<Mark>, NoMemory>
    requires { All (λ m. IsTrue (is_within code m)) marks.now }
    ensures { IfOk result (λ turned. turned.items ≡ map (turned_mark code) marks.now) }
{
    let mut turned = Vec::with_capacity(alloc, marks.len())?;
    for mark in marks {
        turned.push(Mark {
            first: code - mark.end,
            end: code - mark.first,
            at: mark.at,
        })?;
    }
    Ok(turned)
}

fn copied_names(alloc: Global, names: &[FieldName]) -> Result<Vec<FieldName>, NoMemory>
    ensures { IfOk result (λ copied. copied.items ≡ names.now) }
{
    let mut copied = Vec::with_capacity(alloc, names.len())?;
    for name in names {
        copied.push(name.copy(alloc)?)?;
    }
    Ok(copied)
}

impl Noted {
    /// An image with these notes. It takes no memory.
    pub fn seal(image: Image, notes: Notes) -> Noted
        requires { IsTrue (fits image notes) }
        ensures { result ≡ record { image = image; notes = notes } }
    {
        Noted { image, notes }
    }

    /// The image that the notes are about.
    pub fn image(&self) -> &Image
        ensures image { result.now ≡ self.now.image }
        ensures fits { IsTrue (fits self.now.image self.now.notes) }
    {
        &self.image
    }

    /// What is noted of it.
    pub fn notes(&self) -> &Notes
        ensures notes { result.now ≡ self.now.notes }
        ensures fits { IsTrue (fits self.now.image self.now.notes) }
    {
        &self.notes
    }

    /// The image, and what is noted of it. It takes no memory.
    pub fn into_parts(self) -> (Image, Notes)
        ensures image { result.0 ≡ self.image }
        ensures notes { result.1 ≡ self.notes }
        ensures fits { IsTrue (fits self.image self.notes) }
    {
        (self.image, self.notes)
    }
}
