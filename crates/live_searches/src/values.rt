// The value of a name.
ghost use Rattle.std.specs.Prelude.{◌≡◌, ◌++◌, IfOk, Some, None, map, option_map};
ghost use Rattle.source_debugger.specs.meaning_points.rpp_tree.Views.{source_of};
ghost use Rattle.source_debugger.specs.Standing.{trail_of};
ghost use Rattle.live_searches.specs.Values.{value_in as value_in_line, last_value as last_value_of, value_line as line_of_value, value_by as value_of_start, variable_value_at};

use crate::goals::look_command;
use crate::watches::read_watch;
use live_requests::pieces;
use source_debugger::{NoMemory, SourceDebugger};
use std::alloc::{AllocError, Global};

// The rest of a line that begins so, or else another value.
fn value_in<'a>(start: &[u8], line: &'a [u8], best: Option<&'a [u8]>) -> Option<&'a [u8]>
    ensures { option_map (λ value. value.now) result
        ≡ value_in_line start.now line.now (option_map (λ value. value.now) best.entry) }
{
    if line.starts_with(start) {
        Some(&line[start.len()..])
    } else {
        best
    }
}

// The value of the last of some lines that begins so, if one does.
fn last_value<'a>(start: &[u8], lines: &[&'a [u8]]) -> Option<&'a [u8]>
    ensures { option_map (λ value. value.now) result
        ≡ last_value_of start.now None (map (λ line. line.now) lines.now) }
{
    let mut best = None;
    for line in lines {
        best = value_in(start, line, best);
    }
    best
}

// The line on a value.
fn value_line(alloc: Global, value: &[u8]) -> Result<Vec<u8>, AllocError>
    ensures { IfOk result (λ line. line.items ≡ line_of_value value.now) }
{
    let mut line = Vec::new(alloc);
    line.extend_from_slice(b"value ")?;
    line.extend_from_slice(value)?;
    line.push(b'\n')?;
    Ok(line)
}

// The line on the value of the last line of a text that begins so, if one does.
fn value_by(alloc: Global, start: &[u8], text: &[u8]) -> Result<Option<Vec<u8>>, AllocError>
    ensures { IfOk result (λ line. option_map (λ line. line.items) line
        ≡ value_of_start start.now text.now) }
{
    let lines = pieces(alloc, b'\n', text)?;
    match last_value(start, &lines) {
        None => Ok(None),
        Some(value) => Ok(Some(value_line(alloc, value)?)),
    }
}

/// The line on the value of a name at the position, if the name is there. The name is one that
/// `until change` watches.
pub fn tell_value(
    alloc: Global,
    debugger: &mut SourceDebugger<'_>,
    name: &[u8],
) -> Result<Option<Vec<u8>>, NoMemory>
    ensures told { IfOk result (λ line. variable_value_at (source_of debugger.old.program)
        (trail_of debugger.old) name.now debugger.old.position
        ≡ Some (option_map (λ line. line.items) line)) }
    ensures stays { debugger.new ≡ debugger.old }
{
    let watch = read_watch(alloc, name)?;
    let mut text = String::new(alloc);
    debugger.command(alloc, &look_command(watch.object), &mut text)?;
    let line = value_by(alloc, &watch.start, text.as_str().as_bytes())?;
    Ok(line)
}
