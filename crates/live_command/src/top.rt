// The top call of live sessions.
ghost use Rattle.std.specs.Prelude.{◌≡◌, ◌≤◌, Some, [], get_or, map, string_bytes, length};
ghost use Rattle.run_settings.specs.rpp_tree.Views.{source_of};
ghost use Rattle.run_settings.specs.rpp_tree.declared.limits.TheConstants.{MOST_BYTES};
ghost use Rattle.run_settings.specs.pisa_loader.declared.input.TheConstants.{MOST_INPUT};
ghost use Rattle.run_settings.specs.rpp_ports.Ports.{Rose};
ghost use Rattle.live_session.specs.source_debugger.Standing.{IsValidRun};
ghost use Rattle.plan_serving.specs.Places.{held_bytes};
ghost use Rattle.live_command.specs.Beginnings.{session_begun, OfSource, begin_of};
ghost use Rattle.live_command.specs.Lives.{Lives, Starts, OpensRun};

use crate::beginning::{Beginning, Opening, read_opening, wanted_files};
use crate::image::begin_image;
use crate::reporting::report;
use live_images::{Asker, say, status_by};
use live_session::{SourceDebugger, serve};
use plan_serving::{Named, Shelf, Sink, fetch};
use run_settings::{Checked, Input, Limits, NoMemory, NoPlan, Ready, Room, Sizes, ready};
use std::alloc::Global;

const WORDS_REFUSED: u8 = 1;

const OUTSIDE: u8 = 2;

const NO_MEMORY: u8 = 7;

/// Holds the session that the words begin, and returns the status of the program.
pub fn live<S: Shelf, A: Asker, K: Sink>(
    alloc: Global,
    words: &[String],
    shelf: &mut S,
    asker: &mut A,
    out: &mut K,
) -> u8
    // All that is read, heard and put, and the status. The files that the words name are read, each
    // once and in order, up to the first that fails, and nothing else is asked of the file store. Words
    // that begin no session, a file that cannot be read, and what `trace` or `debug` refuses are
    // reported by one text, and no line is heard. Else the greeting is put. Then lines are heard, and
    // to each line one reply is put, in turn. It is that of the definitions on the points of the run,
    // or at the positions of the machine. Nothing else is put.
    ensures session { Lives (begin_of (map string_bytes words.now))
        (Rose (S.faults shelf.old) (S.faults shelf.new))
        (record { texts = S.texts shelf.old; calls = S.events shelf.old })
        (record { texts = S.texts shelf.new; calls = S.events shelf.new })
        (record {
          lines = A.lines asker.old;
          heard = A.events asker.old;
          out = record { bytes = K.written out.old; puts = K.puts out.old };
        })
        (record {
          lines = A.lines asker.new;
          heard = A.events asker.new;
          out = record { bytes = K.written out.new; puts = K.puts out.new };
        }) result }

    // No text is changed.
    ensures kept { S.texts shelf.new ≡ S.texts shelf.old }
    ensures later { S.faults shelf.old ≤ S.faults shelf.new }
{
    match read_opening(words) {
        Err(NoMemory) => NO_MEMORY,
        Ok(None) => report(out, "words refused\n", WORDS_REFUSED),
        Ok(Some(Opening::Source(beginning))) => begin(alloc, &beginning, shelf, asker, out),
        Ok(Some(Opening::Image(loading))) => begin_image(alloc, &loading, shelf, asker, out),
    }
}

// Reads the files.
fn begin<S: Shelf, A: Asker, K: Sink>(
    alloc: Global,
    beginning: &Beginning,
    shelf: &mut S,
    asker: &mut A,
    out: &mut K,
) -> u8
    ensures session { Lives (Some (OfSource (session_begun beginning.now)))
        (Rose (S.faults shelf.old) (S.faults shelf.new))
        (record { texts = S.texts shelf.old; calls = S.events shelf.old })
        (record { texts = S.texts shelf.new; calls = S.events shelf.new })
        (record {
          lines = A.lines asker.old;
          heard = A.events asker.old;
          out = record { bytes = K.written out.old; puts = K.puts out.old };
        })
        (record {
          lines = A.lines asker.new;
          heard = A.events asker.new;
          out = record { bytes = K.written out.new; puts = K.puts out.new };
        }) result }
    ensures kept { S.texts shelf.new ≡ S.texts shelf.old }
    ensures later { S.faults shelf.old ≤ S.faults shelf.new }
{
    let Ok(files) = wanted_files(alloc, beginning) else {
        return NO_MEMORY;
    };
    match fetch(alloc, shelf, &files, "") {
        Err(NoPlan::NoMemory) => NO_MEMORY,
        Err(NoPlan::Unread { text }) => report(out, text.as_str(), OUTSIDE),
        Ok(texts) => {
            let (text, given) = source_and_input(&texts);
            start(alloc, text, given, beginning.room, asker, out)
        }
    }
}

// The texts of a source and of an input, which is empty if none was read.
fn source_and_input(texts: &[Named]) -> (&[u8], &[u8])
    ensures source { result.0.now ≡ get_or (map held_bytes texts.now) 0 [] }
    ensures input { result.1.now ≡ get_or (map held_bytes texts.now) 1 [] }
{
    let none = b"".as_slice();
    match texts {
        [] => (none, none),
        [text] => (text.bytes.as_slice(), none),
        [text, input, ..] => (text.bytes.as_slice(), input.bytes.as_slice()),
    }
}

// Checks the texts.
fn start<A: Asker, K: Sink>(
    alloc: Global,
    text: &[u8],
    given: &[u8],
    room: Room,
    asker: &mut A,
    out: &mut K,
) -> u8
    requires text { length text.now ≤ MOST_BYTES }
    requires input { length given.now ≤ MOST_INPUT }
    ensures { Starts text.now given.now room
        (record {
          lines = A.lines asker.old;
          heard = A.events asker.old;
          out = record { bytes = K.written out.old; puts = K.puts out.old };
        })
        (record {
          lines = A.lines asker.new;
          heard = A.events asker.new;
          out = record { bytes = K.written out.new; puts = K.puts out.new };
        }) result }
{
    let sizes = Sizes { room, bound: 0 };
    match ready(alloc, text, given, sizes) {
        Err(NoMemory) => NO_MEMORY,
        Ok(Ready::Refused(plan)) => report(out, plan.text.as_str(), plan.verdict.code()),
        Ok(Ready::Runs(setting)) => {
            hold(
                alloc,
                setting.checked,
                &setting.input,
                setting.limits,
                asker,
                out,
            )
        }
    }
}

// Holds the run of a program open.
fn hold<A: Asker, K: Sink>(
    alloc: Global,
    checked: Checked,
    input: &Input,
    limits: Limits,
    asker: &mut A,
    out: &mut K,
) -> u8
    requires { IsValidRun (source_of checked) limits input.now.words.items }
    ensures { OpensRun
        (record {
          lines = A.lines asker.old;
          heard = A.events asker.old;
          out = record { bytes = K.written out.old; puts = K.puts out.old };
        })
        (record {
          lines = A.lines asker.new;
          heard = A.events asker.new;
          out = record { bytes = K.written out.new; puts = K.puts out.new };
        }) result
        (source_of checked) limits input.now.words.items }
{
    match SourceDebugger::new(alloc, &checked, input, limits) {
        Ok(debugger) => {
            let mut debugger = debugger;
            greet(alloc, &mut debugger, asker, out)
        }
        Err(NoMemory) => NO_MEMORY,
    }
}

// Puts the greeting, and answers lines.
fn greet<A: Asker, K: Sink>(
    alloc: Global,
    debugger: &mut SourceDebugger<'_>,
    asker: &mut A,
    out: &mut K,
) -> u8
    requires { debugger.old.position ≡ 0 }
    ensures { OpensRun
        (record {
          lines = A.lines asker.old;
          heard = A.events asker.old;
          out = record { bytes = K.written out.old; puts = K.puts out.old };
        })
        (record {
          lines = A.lines asker.new;
          heard = A.events asker.new;
          out = record { bytes = K.written out.new; puts = K.puts out.new };
        }) result
        (source_of debugger.old.program) debugger.old.limits debugger.old.input }
{
    match say(out, "rooplpp-live 1 source\n. done\n") {
        Ok(()) => serve(alloc, debugger, asker, out),
        Err(fault) => status_by(0, Err(fault)),
    }
}
