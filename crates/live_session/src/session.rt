// A session: lines and their replies.
ghost use Rattle.std.specs.Prelude.{◌≡◌, ◌≤◌, length, ⊤, None};
ghost use Rattle.live_talks.specs.pisa_scripts.declared.lines.TheConstants.{MOST_SCRIPT};
ghost use Rattle.live_searches.specs.rpp_tree.Views.{source_of};
ghost use Rattle.live_searches.specs.source_debugger.Failures.{account_of};
ghost use Rattle.live_talks.specs.live_port.Heard.{Heard};
ghost use Rattle.live_searches.specs.Steps.{IsSameRun};
ghost use Rattle.live_talks.specs.Sessions.{IsReply, quits, IsSession};
ghost use Rattle.live_talks.specs.Serving.{PutsBy, Serves};
ghost use Rattle.live_talks.specs.Limits.{held_run};
ghost use Rattle.live_session.specs.Sessions.{RepliesOf};

use crate::replying::answer;
use live_searches::SourceDebugger;
use live_talks::{Asked, Asker, End, NoMemory, Sink, limit_of, read_request, say_end};
use std::alloc::Global;

// Puts the reply to a line, which may set the limit.
fn answer_line<K: Sink>(
    alloc: Global,
    debugger: &mut SourceDebugger<'_>,
    limit: &mut Option<u64>,
    line: &[u8],
    out: &mut K,
) -> Option<u8>
    requires { length line.now ≤ MOST_SCRIPT }
    ensures puts { PutsBy (IsReply (RepliesOf (source_of debugger.old.program)
        (account_of debugger.old)) (Heard.Line line.now) (held_run debugger.old.position limit.old))
        (quits (Heard.Line line.now)) ⊤ (held_run debugger.old.position limit.old)
        (held_run debugger.new.position limit.new)
        (record { bytes = K.written out.old; puts = K.puts out.old })
        (record { bytes = K.written out.new; puts = K.puts out.new }) result }
    ensures same { IsSameRun debugger.old debugger.new }
{
    match read_request(alloc, line) {
        Ok(request) => match limit_of(request) {
            Some(most) => {
                *limit = Some(most);
                say_end(out, End::Done)
            }
            None => answer(alloc, debugger, *limit, request, line, out),
        },
        Err(NoMemory) => say_end(out, End::Memory),
    }
}

// Hears a line, and puts the reply to it. There is a status where the session ends.
fn exchange<A: Asker, K: Sink>(
    alloc: Global,
    debugger: &mut SourceDebugger<'_>,
    limit: &mut Option<u64>,
    asker: &mut A,
    out: &mut K,
) -> Option<u8>
    ensures goes { Serves (RepliesOf (source_of debugger.old.program) (account_of debugger.old))
        (held_run debugger.old.position limit.old) (held_run debugger.new.position limit.new)
        (record {
          lines = A.lines asker.old;
          heard = A.events asker.old;
          out = record { bytes = K.written out.old; puts = K.puts out.old };
        })
        (record {
          lines = A.lines asker.new;
          heard = A.events asker.new;
          out = record { bytes = K.written out.new; puts = K.puts out.new };
        }) result }
    ensures same { IsSameRun debugger.old debugger.new }
{
    match asker.next() {
        Asked::Line(line) => answer_line(alloc, debugger, limit, &line, out),
        Asked::Long => say_end(out, End::Long),
        Asked::Lost => say_end(out, End::Memory),
        Asked::Over => Some(0),
        Asked::Failed => Some(2),
    }
}

/// Hears lines, and puts the reply to each, until the input ends or asks for the end. Gives the
/// status of the program. At first there is no limit on the moves of a request.
pub fn serve<A: Asker, K: Sink>(
    alloc: Global,
    debugger: &mut SourceDebugger<'_>,
    asker: &mut A,
    out: &mut K,
) -> u8
    ensures { IsSession (RepliesOf (source_of debugger.old.program) (account_of debugger.old))
        (held_run debugger.old.position None)
        (record {
          lines = A.lines asker.old;
          heard = A.events asker.old;
          out = record { bytes = K.written out.old; puts = K.puts out.old };
        })
        (record {
          lines = A.lines asker.new;
          heard = A.events asker.new;
          out = record { bytes = K.written out.new; puts = K.puts out.new };
        }) result }
{
    let mut limit = None;
    for _ in 0..u64::MAX {
        match exchange(alloc, debugger, &mut limit, asker, out) {
            Some(status) => return status,
            None => {}
        }
    }
    0
}
