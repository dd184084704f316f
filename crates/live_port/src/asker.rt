// Lines that come in.
ghost use Rattle.std.specs.Prelude.{◌≡◌, ◌≢◌, ◌≤◌, ◌∷◌, List, ℕ, vec_len};
ghost use Rattle.std.specs.declared.option.Option.{Option};
ghost use Rattle.live_port.specs.rpp_ports.Ports.{Rose};
ghost use Rattle.live_port.specs.Heard.{Heard, heard, heard_of, ends_in_return as line_ends_in_return, line_without_return, IsWithin, TellsHeard};

/// The most bytes of a line, without its line feed.
pub const MOST_LINE: usize = 4096;

/// What is heard when a line is asked for.
#[derive(Drop)]
pub enum Asked {
    /// A line, without its line feed, and without a carriage return before that.
    Line(Vec<u8>),
    /// A line that is longer than `MOST_LINE`. It was passed over.
    Long,
    /// A line for which there was no memory. It was passed over.
    Lost,
    /// There is no further line.
    Over,
    /// Input has failed; the count of faults rose.
    Failed,
}

/// Where lines come from. Each call adds one event.
pub trait Asker {
    /// If they are known: the lines that are still to come, without their line feeds.
    ghost lines: { Self → Option (List (List ℕ)) };

    /// How often input has failed, up to 2^64 - 1. It never falls.
    ghost faults: { Self → ℕ };

    /// What was heard so far, the last first. It is there whether the lines are known or not.
    ghost events: { Self → List Heard };

    /// The next line.
    ///
    /// If the lines are known, it is their first one, or `Long` where that has too many bytes, or
    /// `Over` where there is none. `Lost` and `Failed` say nothing of the line; `Failed` comes
    /// only if the count of faults rose.
    fn next(&mut self) -> Asked
        ensures within { IsWithin (heard result) }
        ensures told { TellsHeard (lines self.old) (heard result) (lines self.new) }
        ensures noted { events self.new ≡ heard result ∷ events self.old }
        ensures cause { heard result ≡ Heard.Failed → Rose (faults self.old) (faults self.new) }
        ensures later { faults self.old ≤ faults self.new };
}

/// A line as it came, without its line feed: what is heard of it.
pub(crate) fn measured(line: Vec<u8>) -> Asked
    ensures heard { heard result ≡ heard_of line.items }
    ensures within { IsWithin (heard result) }
{
    if line.len() > MOST_LINE {
        return Asked::Long;
    }
    Asked::Line(drop_return(line))
}

// The line without a carriage return at its end.
fn drop_return(line: Vec<u8>) -> Vec<u8>
    ensures items { result.items ≡ line_without_return line.items }
    ensures within { vec_len result ≤ vec_len line }
{
    let mut line = line;
    if ends_in_return(&line) {
        line.pop();
    }
    line
}

fn ends_in_return(line: &[u8]) -> bool
    ensures { result ≡ line_ends_in_return line.now }
{
    match line.last() {
        None => false,
        Some(byte) => *byte == b'\r',
    }
}
