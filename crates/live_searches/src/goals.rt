// What moves look for.
ghost use Rattle.std.specs.Prelude.{◌≡◌, ◌++◌, nat_le, IfOk, OnOk, Some, map};
ghost use Rattle.std.specs.Option.{option_map};
ghost use Rattle.source_debugger.specs.meaning_points.rpp_tree.Views.{source_of};
ghost use Rattle.source_debugger.specs.Looks.{seen_of};
ghost use Rattle.source_debugger.specs.Walks.{stand_at};
ghost use Rattle.source_debugger.specs.Standing.{trail_of};
ghost use Rattle.live_searches.specs.Goals.{is_place as is_place_of, is_any as is_any_of, has_any as has_any_of, depth_of, kept_line, lines_from, prefixed_lines as lines_of_start, shown_for, depth_for as depth_of_watch, sight_at, search_mark_at, is_change as is_change_of, is_changed_at, any_met, depth_met, wanted as wanted_at};
ghost use Rattle.live_searches.specs.Sights.{watch_in, sight_of, kept_mark_of, look_of};
ghost use Rattle.live_requests.specs.Asks.{first_argument};

use crate::watches::{Watch, read_watch};
use live_requests::{Command, Goal, pieces, short_number};
use source_debugger::{NoMemory, Seen, SourceDebugger};
use std::alloc::{AllocError, Global};

// What `until change` compares: the number of active calls, and the lines of what is watched.
#[derive(Drop)]
pub(crate) struct Glance {
    pub depth: u32,
    pub lines: Vec<u8>,
}

// What `until change` watches, and how it was at the beginning.
#[derive(Drop)]
pub(crate) struct Mark {
    pub watch: Watch,
    pub glance: Glance,
}

fn is_place(number: Option<u64>, place: u32) -> bool
    ensures { result ≡ is_place_of number place }
{
    match number {
        None => false,
        Some(number) => number == u64::from(place),
    }
}

// Whether one of these words writes the offset.
fn is_any(words: &[&[u8]], place: u32) -> bool
    ensures { result ≡ is_any_of (map (λ word. word.now) words.now) place }
{
    match words {
        [] => false,
        [word, rest @ ..] => {
            if is_place(short_number(word), place) {
                true
            } else {
                is_any(rest, place)
            }
        }
    }
}

fn has_any(words: &[&[u8]], seen: Seen) -> bool
    ensures { result ≡ has_any_of (map (λ word. word.now) words.now) seen }
{
    match seen {
        Seen::At { place, depth: _ } => is_any(words, place),
        Seen::End => false,
    }
}

fn depth_in(seen: Seen) -> u32
    ensures { result ≡ depth_of seen }
{
    match seen {
        Seen::At { place: _, depth } => depth,
        Seen::End => 1,
    }
}

// Adds a line, if it is to be kept.
fn add_line(kept: &mut Vec<u8>, keeps: bool, line: &[u8]) -> Result<(), AllocError>
    ensures { OnOk result (kept.new.items ≡ kept.old.items ++ kept_line keeps line.now) }
{
    if keeps {
        kept.extend_from_slice(line)?;
        kept.push(b'\n')?;
    }
    Ok(())
}

// Adds the lines that begin so.
fn add_lines(kept: &mut Vec<u8>, start: &[u8], lines: &[&[u8]]) -> Result<(), AllocError>
    ensures { OnOk result (kept.new.items
        ≡ kept.old.items ++ lines_from start.now (map (λ line. line.now) lines.now)) }
{
    match lines {
        [] => Ok(()),
        [line, rest @ ..] => {
            add_line(kept, line.starts_with(start), line)?;
            add_lines(kept, start, rest)
        }
    }
}

// The lines of a text that begin so.
fn lines_by(alloc: Global, start: &[u8], text: &[u8]) -> Result<Vec<u8>, AllocError>
    ensures { IfOk result (λ lines. lines.items ≡ lines_of_start start.now text.now) }
{
    let lines = pieces(alloc, b'\n', text)?;
    let mut kept = Vec::new(alloc);
    add_lines(&mut kept, start, &lines)?;
    Ok(kept)
}

/// The command that shows an object, or the variables.
pub(crate) fn look_command(object: Option<u32>) -> Command
    ensures { result ≡ look_of object }
{
    match object {
        None => Command::Regs,
        Some(object) => Command::Cells(object, 1),
    }
}

// The lines of what is watched, as they are printed at the position.
fn watched_lines(
    alloc: Global,
    debugger: &mut SourceDebugger<'_>,
    watch: &Watch,
) -> Result<Vec<u8>, NoMemory>
    ensures told { IfOk result (λ lines. option_map (lines_of_start watch.now.start.items)
        (shown_for (source_of debugger.old.program) watch.now.object
        (stand_at (trail_of debugger.old) debugger.old.position)) ≡ Some lines.items) }
    ensures stays { debugger.new ≡ debugger.old }
{
    let mut text = String::new(alloc);
    debugger.command(alloc, &look_command(watch.object), &mut text)?;
    let lines = lines_by(alloc, &watch.start, text.as_str().as_bytes())?;
    Ok(lines)
}

fn first_word<'a>(words: &'a [&'a [u8]]) -> &'a [u8]
    ensures { result.now ≡ first_argument (map (λ word. word.now) words.now) }
{
    match words {
        [] => &[],
        [word, ..] => word,
    }
}

// The number of active calls that counts for what is watched.
fn depth_for(object: Option<u32>, seen: Seen) -> u32
    ensures { result ≡ depth_of_watch object seen }
{
    match object {
        None => depth_in(seen),
        Some(_object) => 0,
    }
}

// What `until change` compares at the position.
fn make_glance(
    alloc: Global,
    debugger: &mut SourceDebugger<'_>,
    watch: &Watch,
) -> Result<Glance, NoMemory>
    ensures told { IfOk result (λ glance. sight_at (source_of debugger.old.program)
        (trail_of debugger.old) (watch_in watch.now) debugger.old.position
        ≡ Some (sight_of glance)) }
    ensures stays { debugger.new ≡ debugger.old }
{
    let seen = debugger.look(alloc)?;
    let lines = watched_lines(alloc, debugger, watch)?;
    Ok(Glance {
        depth: depth_for(watch.object, seen),
        lines,
    })
}

/// What `until change` watches, as it is at the position.
pub(crate) fn make_mark(
    alloc: Global,
    debugger: &mut SourceDebugger<'_>,
    arguments: &[&[u8]],
) -> Result<Mark, NoMemory>
    ensures told { IfOk result (λ mark. search_mark_at (source_of debugger.old.program)
        (trail_of debugger.old) (map (λ word. word.now) arguments.now) debugger.old.position
        ≡ Some (kept_mark_of mark)) }
    ensures stays { debugger.new ≡ debugger.old }
{
    let watch = read_watch(alloc, first_word(arguments))?;
    let glance = make_glance(alloc, debugger, &watch)?;
    Ok(Mark { watch, glance })
}

// Whether fewer calls are active, or as many and the lines are not the same.
fn is_change(from: &Glance, here: &Glance) -> bool
    ensures { result ≡ is_change_of (sight_of from.now) (sight_of here.now) }
{
    if here.depth < from.depth {
        return true;
    }
    if from.depth < here.depth {
        return false;
    }
    here.lines.as_slice() != from.lines.as_slice()
}

fn is_within(seen: Seen, most: u64) -> bool
    ensures { result ≡ nat_le (depth_of seen) most }
{
    u64::from(depth_in(seen)) <= most
}

// Whether the position has one of these offsets.
fn any_here(
    alloc: Global,
    debugger: &mut SourceDebugger<'_>,
    arguments: &[&[u8]],
) -> Result<bool, NoMemory>
    ensures told { IfOk result (λ met. met ≡ any_met (map (λ word. word.now) arguments.now)
        (seen_of (stand_at (trail_of debugger.old) debugger.old.position))) }
    ensures stays { debugger.new ≡ debugger.old }
{
    let seen = debugger.look(alloc)?;
    Ok(has_any(arguments, seen))
}

// Whether at most so many calls are active at the position.
fn depth_here(alloc: Global, debugger: &mut SourceDebugger<'_>, most: u64) -> Result<bool, NoMemory>
    ensures told { IfOk result (λ met. met ≡ depth_met most
        (seen_of (stand_at (trail_of debugger.old) debugger.old.position))) }
    ensures stays { debugger.new ≡ debugger.old }
{
    let seen = debugger.look(alloc)?;
    Ok(is_within(seen, most))
}

// Whether the position shows a change.
fn change_here(
    alloc: Global,
    debugger: &mut SourceDebugger<'_>,
    from: &Mark,
) -> Result<bool, NoMemory>
    ensures told { IfOk result (λ met. met ≡ is_changed_at (source_of debugger.old.program)
        (trail_of debugger.old) (Some (kept_mark_of from.now)) debugger.old.position) }
    ensures stays { debugger.new ≡ debugger.old }
{
    let here = make_glance(alloc, debugger, &from.watch)?;
    Ok(is_change(&from.glance, &here))
}

/// Whether the position is what moves look for that began at another one.
pub(crate) fn wanted(
    alloc: Global,
    debugger: &mut SourceDebugger<'_>,
    goal: Goal,
    arguments: &[&[u8]],
    from: &Mark,
) -> Result<bool, NoMemory>
    ensures told { IfOk result (λ met. met ≡ wanted_at (source_of debugger.old.program)
        (trail_of debugger.old) goal (map (λ word. word.now) arguments.now)
        (Some (kept_mark_of from.now)) debugger.old.position) }
    ensures stays { debugger.new ≡ debugger.old }
{
    match goal {
        Goal::Points => Ok(false),
        Goal::Any => any_here(alloc, debugger, arguments),
        Goal::Depth(most) => depth_here(alloc, debugger, most),
        Goal::Change => change_here(alloc, debugger, from),
        Goal::Cell(_address) => Ok(false),
    }
}
