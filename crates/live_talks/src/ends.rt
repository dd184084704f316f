// The last lines of replies.
ghost use Rattle.std.specs.Prelude.{◌≡◌};
ghost use Rattle.live_talks.specs.Ends.{end_line as line_of_end};

/// How a reply ends.
#[derive(Clone, Copy, PartialEq, Eq, Debug)]
pub enum End {
    /// The reply is complete. After moves: all were made, or the place was met.
    Done,
    /// A search ended at a position that it looks for.
    Met,
    /// A search made all moves, and met no such position.
    More,
    /// The moves back reached position 0 before all were made.
    Start,
    /// The run ended before all moves were made.
    Over,
    /// The run stops with a fault before all moves are made.
    Fault,
    /// What is asked for is not there.
    None,
    /// The line is no request.
    Bad,
    /// The line is too long.
    Long,
    /// There was no memory. The position is as before.
    Memory,
    /// The session is over.
    Bye,
}

/// The last line of a reply.
pub fn end_line(end: End) -> &'static str
    ensures { result.now ≡ line_of_end end }
{
    match end {
        End::Done => ". done\n",
        End::Met => ". met\n",
        End::More => ". more\n",
        End::Start => ". start\n",
        End::Over => ". end\n",
        End::Fault => ". fault\n",
        End::None => ". none\n",
        End::Bad => ". bad\n",
        End::Long => ". long\n",
        End::Memory => ". memory\n",
        End::Bye => ". bye\n",
    }
}
