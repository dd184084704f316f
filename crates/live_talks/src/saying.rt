// Texts that are put, and the status by what the sink answered.
ghost use Rattle.std.specs.Prelude.{◌≡◌};
ghost use Rattle.live_talks.specs.Ends.{end_line as line_of_end};
ghost use Rattle.live_talks.specs.Talks.{TalkPuts, PutsText, PutsBye, status_by as status_by_answer, over_by as over_by_answer};

use crate::ends::{End, end_line};
use live_port::{Sink, SinkFault};

const OUTSIDE: u8 = 2;

const NO_MEMORY: u8 = 7;

// Puts bytes, once.
fn put<K: Sink>(out: &mut K, bytes: &[u8]) -> Result<(), SinkFault>
    ensures { TalkPuts bytes.now result
        (record { bytes = K.written out.old; puts = K.puts out.old })
        (record { bytes = K.written out.new; puts = K.puts out.new }) }
{
    match out.put(bytes) {
        Ok(()) => Ok(()),
        Err(SinkFault::Failed) => Err(SinkFault::Failed),
        Err(SinkFault::NoMemory) => Err(SinkFault::NoMemory),
    }
}

/// Puts a text, once.
pub fn say<K: Sink>(out: &mut K, text: &str) -> Result<(), SinkFault>
    ensures { TalkPuts text.now result
        (record { bytes = K.written out.old; puts = K.puts out.old })
        (record { bytes = K.written out.new; puts = K.puts out.new }) }
{
    put(out, text.as_bytes())
}

/// The status after a put: this one, if the text was taken.
pub fn status_by(taken: u8, answer: Result<(), SinkFault>) -> u8
    ensures { result ≡ status_by_answer taken answer }
{
    match answer {
        Ok(()) => taken,
        Err(SinkFault::Failed) => OUTSIDE,
        Err(SinkFault::NoMemory) => NO_MEMORY,
    }
}

// The status with which a session ends after a put, if it ends.
fn over_by(answer: Result<(), SinkFault>) -> Option<u8>
    ensures { result ≡ over_by_answer answer }
{
    match answer {
        Ok(()) => None,
        Err(SinkFault::Failed) => Some(OUTSIDE),
        Err(SinkFault::NoMemory) => Some(NO_MEMORY),
    }
}

/// Puts a reply. If it is not taken, the session ends with the status.
pub fn say_text<K: Sink>(out: &mut K, text: &str) -> Option<u8>
    ensures { PutsText text.now
        (record { bytes = K.written out.old; puts = K.puts out.old })
        (record { bytes = K.written out.new; puts = K.puts out.new }) result }
{
    let answer = say(out, text);
    over_by(answer)
}

/// Puts a reply in bytes. If it is not taken, the session ends with the status.
pub fn say_bytes<K: Sink>(out: &mut K, bytes: &[u8]) -> Option<u8>
    ensures { PutsText bytes.now
        (record { bytes = K.written out.old; puts = K.puts out.old })
        (record { bytes = K.written out.new; puts = K.puts out.new }) result }
{
    let answer = put(out, bytes);
    over_by(answer)
}

/// Puts a reply that is one last line. If it is not taken, the session ends with the status.
pub fn say_end<K: Sink>(out: &mut K, end: End) -> Option<u8>
    ensures { PutsText (line_of_end end)
        (record { bytes = K.written out.old; puts = K.puts out.old })
        (record { bytes = K.written out.new; puts = K.puts out.new }) result }
{
    say_text(out, end_line(end))
}

/// Puts the last reply, and gives the status.
pub fn say_bye<K: Sink>(out: &mut K) -> u8
    ensures { PutsBye (record { bytes = K.written out.old; puts = K.puts out.old })
        (record { bytes = K.written out.new; puts = K.puts out.new }) result }
{
    let answer = say(out, end_line(End::Bye));
    status_by(0, answer)
}
