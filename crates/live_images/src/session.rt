// A session: lines and their replies.
ghost use Rattle.std.specs.Prelude.{◌≤◌, length, ⊤};
ghost use Rattle.live_talks.specs.pisa_scripts.declared.lines.TheConstants.{MOST_SCRIPT};
ghost use Rattle.live_talks.specs.live_port.Heard.{Heard};
ghost use Rattle.live_talks.specs.Limits.{WithLimits};
ghost use Rattle.live_talks.specs.Serving.{PutsBy, Serves};
ghost use Rattle.live_talks.specs.Sessions.{IsReply, IsSession, quits};
ghost use Rattle.live_images.specs.Sessions.{ImageRepliesOf, held_in};

use crate::replying::answer;
use crate::run::Run;
use image_searches::Steps;
use live_talks::{Asked, Asker, End, NoMemory, Sink, read_request, say_end};
use std::alloc::Global;
use std::sync::ledger::Ledger;

// Puts the reply to a line.
fn answer_line<L: Ledger, K: Sink>(
    alloc: Global,
    run: &mut Run,
    steps: &mut Steps<L>,
    line: &[u8],
    out: &mut K,
) -> Option<u8>
    requires { length line.now ≤ MOST_SCRIPT }
    ensures { PutsBy (IsReply (WithLimits ImageRepliesOf) (Heard.Line line.now) (held_in run.old))
        (quits (Heard.Line line.now)) ⊤ (held_in run.old) (held_in run.new)
        (record { bytes = K.written out.old; puts = K.puts out.old })
        (record { bytes = K.written out.new; puts = K.puts out.new }) result }
{
    match read_request(alloc, line) {
        Ok(request) => answer(alloc, run, steps, request, line, out),
        Err(NoMemory) => say_end(out, End::Memory),
    }
}

// Hears a line, and puts the reply to it. There is a status where the session ends.
fn exchange<L: Ledger, A: Asker, K: Sink>(
    alloc: Global,
    run: &mut Run,
    steps: &mut Steps<L>,
    asker: &mut A,
    out: &mut K,
) -> Option<u8>
    ensures { Serves (WithLimits ImageRepliesOf) (held_in run.old) (held_in run.new)
        (record {
          lines = A.lines asker.old;
          heard = A.events asker.old;
          out = record { bytes = K.written out.old; puts = K.puts out.old };
        })
        (record {
          lines = A.lines asker.new;
          heard = A.events asker.new;
          out = record { bytes = K.written out.new; puts = K.puts out.new };
        }) result }
{
    match asker.next() {
        Asked::Line(line) => answer_line(alloc, run, steps, &line, out),
        Asked::Long => say_end(out, End::Long),
        Asked::Lost => say_end(out, End::Memory),
        Asked::Over => Some(0),
        Asked::Failed => Some(2),
    }
}

/// Hears lines, and puts the reply to each, until the input ends or asks for the end. Gives the
/// status of the program.
pub fn serve<L: Ledger, A: Asker, K: Sink>(
    alloc: Global,
    run: &mut Run,
    steps: &mut Steps<L>,
    asker: &mut A,
    out: &mut K,
) -> u8
    ensures { IsSession (WithLimits ImageRepliesOf) (held_in run.old)
        (record {
          lines = A.lines asker.old;
          heard = A.events asker.old;
          out = record { bytes = K.written out.old; puts = K.puts out.old };
        })
        (record {
          lines = A.lines asker.new;
          heard = A.events asker.new;
          out = record { bytes = K.written out.new; puts = K.puts out.new };
        }) result }
{
    for _ in 0..u64::MAX {
        match exchange(alloc, run, steps, asker, out) {
            Some(status) => return status,
            None => {}
        }
    }
    0
}
