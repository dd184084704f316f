// The words that begin a session, and the files that they name.
ghost use Rattle.std.specs.Prelude.{◌≡◌, map, option_map, string_bytes, IfOk};
ghost use Rattle.plan_serving.specs.Wanted.{file_of};
ghost use Rattle.live_command.specs.Beginnings.{session_begun, loads, session_opened, OfSource, OfImage, begin_of, source_begin, source_with, image_begin, image_with, room_of};
ghost use Rattle.live_command.specs.Lives.{session_files};

use plan_serving::Wanted;
use run_settings::limits::MOST_BYTES;
use run_settings::{MOST_IMAGE, MOST_INPUT, MOST_STATE, NoMemory, Room, short_number};
use std::alloc::{AllocError, Global};

/// What a session of a source is held of: its file, the sizes of its memory, and the file of its input,
/// if there is one.
#[derive(Drop)]
pub(crate) struct Beginning {
    pub file: String,
    pub room: Room,
    pub input: Option<String>,
}

/// What a session of an image is held of: its file, the sizes of its memory, and the file of a state,
/// if there is one.
#[derive(Drop)]
pub(crate) struct Loading {
    pub file: String,
    pub room: Room,
    pub state: Option<String>,
}

/// What a session is held of.
#[derive(Drop)]
pub(crate) enum Opening {
    /// `source F H D`, or `source F H D INPUT`.
    Source(Beginning),
    /// `image IMG H D`, or `image IMG H D STATE`.
    Image(Loading),
}

/// What the words begin, if they begin a session.
pub(crate) fn read_opening(words: &[String]) -> Result<Option<Opening>, NoMemory>
    ensures { IfOk result (λ it. option_map session_opened it ≡ begin_of (map string_bytes words.now)) }
{
    let Some((name, args)) = words.split_first() else {
        return Ok(None);
    };
    match name.as_str() {
        "source" => read_source(args),
        "image" => read_image_words(args),
        _ => Ok(None),
    }
}

fn read_source(args: &[String]) -> Result<Option<Opening>, NoMemory>
    ensures { IfOk result (λ it. option_map session_opened it ≡ source_begin (map string_bytes args.now)) }
{
    match args {
        [file, heap, deep] => begins(file, read_room(heap, deep), None),
        [file, heap, deep, input] => begins(file, read_room(heap, deep), Some(input.clone()?)),
        _ => Ok(None),
    }
}

fn begins(
    file: &String,
    room: Option<Room>,
    input: Option<String>,
) -> Result<Option<Opening>, NoMemory>
    ensures { IfOk result (λ it. option_map session_opened it
        ≡ source_with (string_bytes file.now) room (option_map string_bytes input)) }
{
    let Some(room) = room else {
        return Ok(None);
    };
    Ok(Some(Opening::Source(Beginning {
        file: file.clone()?,
        room,
        input,
    })))
}

fn read_image_words(args: &[String]) -> Result<Option<Opening>, NoMemory>
    ensures { IfOk result (λ it. option_map session_opened it ≡ image_begin (map string_bytes args.now)) }
{
    match args {
        [file, heap, deep] => loads_image(file, read_room(heap, deep), None),
        [file, heap, deep, state] => {
            loads_image(file, read_room(heap, deep), Some(state.clone()?))
        }
        _ => Ok(None),
    }
}

fn loads_image(
    file: &String,
    room: Option<Room>,
    state: Option<String>,
) -> Result<Option<Opening>, NoMemory>
    ensures { IfOk result (λ it. option_map session_opened it
        ≡ image_with (string_bytes file.now) room (option_map string_bytes state)) }
{
    let Some(room) = room else {
        return Ok(None);
    };
    Ok(Some(Opening::Image(Loading {
        file: file.clone()?,
        room,
        state,
    })))
}

/// The files that a session of a source reads, in order.
pub(crate) fn wanted_files(alloc: Global, it: &Beginning) -> Result<Vec<Wanted>, AllocError>
    ensures { IfOk result (λ files. map file_of files.items ≡ session_files (OfSource (session_begun it.now))) }
{
    let mut files = Vec::new(alloc);
    files.push(Wanted {
        name: it.file.clone()?,
        limit: MOST_BYTES as u64,
    })?;
    if let Some(name) = &it.input {
        files.push(Wanted {
            name: name.clone()?,
            limit: MOST_INPUT as u64,
        })?;
    }
    Ok(files)
}

/// The files that a session of an image reads, in order.
pub(crate) fn wanted_image(alloc: Global, it: &Loading) -> Result<Vec<Wanted>, AllocError>
    ensures { IfOk result (λ files. map file_of files.items ≡ session_files (OfImage (loads it.now))) }
{
    let mut files = Vec::new(alloc);
    files.push(Wanted {
        name: it.file.clone()?,
        limit: MOST_IMAGE as u64,
    })?;
    if let Some(name) = &it.state {
        files.push(Wanted {
            name: name.clone()?,
            limit: MOST_STATE as u64,
        })?;
    }
    Ok(files)
}

// The sizes of a memory that two words are.
fn read_room(heap: &String, deep: &String) -> Option<Room>
    ensures { result ≡ room_of (string_bytes heap.now) (string_bytes deep.now) }
{
    let heap = short_number(heap.as_bytes())?;
    let deep = short_number(deep.as_bytes())?;
    Some(Room { heap, deep })
}
