// What `until change` watches.
ghost use Rattle.std.specs.Prelude.{◌≡◌, ◌++◌, IfOk, codes, map, option_map};
ghost use Rattle.live_requests.specs.pisa_scripts.Lines.{pieces as pieces_of};
ghost use Rattle.live_searches.specs.Goals.{object_number as number_of, cell_watch as watch_of_cell, variable_watch as watch_of_variable, or_watch, watch_of};
ghost use Rattle.live_searches.specs.Sights.{watch_in};

use live_requests::{number_up_to, pieces};
use std::alloc::{AllocError, Global};

/// A variable or field of the method that runs, or a field or element of an object.
#[derive(Drop)]
pub(crate) struct Watch {
    /// The object, if one is named.
    pub object: Option<u32>,
    /// How its lines begin.
    pub start: Vec<u8>,
}

// How the lines of a name or label begin, with this before it.
fn start_of(alloc: Global, before: &[u8], label: &[u8]) -> Result<Vec<u8>, AllocError>
    ensures { IfOk result (λ start. start.items ≡ before.now ++ (label.now ++ codes " = ")) }
{
    let mut start = Vec::new(alloc);
    start.extend_from_slice(before)?;
    start.extend_from_slice(label)?;
    start.extend_from_slice(b" = ")?;
    Ok(start)
}

// K of `#K`.
fn object_number(word: &[u8]) -> Option<u32>
    ensures { result ≡ number_of word.now }
{
    let (mark, digits) = word.split_first()?;
    if *mark != b'#' {
        return None;
    }
    let number = number_up_to(u64::from(u32::MAX), digits)?;
    Some(number as u32)
}

// `#K` and the label of a field or element, whose lines begin with `before`.
fn cell_watch(alloc: Global, before: &[u8], words: &[&[u8]]) -> Result<Option<Watch>, AllocError>
    ensures { IfOk result (λ watch. option_map watch_in watch
        ≡ watch_of_cell before.now (map (λ word. word.now) words.now)) }
{
    match words {
        [object, label] => match object_number(object) {
            None => Ok(None),
            Some(object) => Ok(Some(Watch {
                object: Some(object),
                start: start_of(alloc, before, label)?,
            })),
        },
        _ => Ok(None),
    }
}

fn variable_watch(alloc: Global, name: &[u8]) -> Result<Watch, AllocError>
    ensures { IfOk result (λ watch. watch_in watch ≡ watch_of_variable name.now) }
{
    Ok(Watch {
        object: None,
        start: start_of(alloc, b"", name)?,
    })
}

// `#K[I]`, or else a variable or field of the method that runs.
fn element_or_variable(alloc: Global, name: &[u8]) -> Result<Watch, AllocError>
    ensures { IfOk result (λ watch. watch_in watch ≡ or_watch
        (watch_of_cell (codes "  [") (pieces_of 91 name.now)) (watch_of_variable name.now)) }
{
    let words = pieces(alloc, b'[', name)?;
    let element = cell_watch(alloc, b"  [", &words)?;
    match element {
        Some(watch) => Ok(watch),
        None => variable_watch(alloc, name),
    }
}

/// What a word says to watch: `#K.FIELD`, `#K[I]`, or else a variable or field of the method that runs.
pub(crate) fn read_watch(alloc: Global, name: &[u8]) -> Result<Watch, AllocError>
    ensures { IfOk result (λ watch. watch_in watch ≡ watch_of name.now) }
{
    let words = pieces(alloc, b'.', name)?;
    let field = cell_watch(alloc, b"  ", &words)?;
    match field {
        Some(watch) => Ok(watch),
        None => element_or_variable(alloc, name),
    }
}
