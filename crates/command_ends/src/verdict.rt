// How a command ended that nothing stopped.
ghost use Rattle.std.specs.Prelude.{◌≡◌};
ghost use Rattle.command_ends.specs.Statuses.{code_of};

/// How a command ended that nothing stopped.
#[derive(Clone, Copy, Debug, PartialEq, Eq)]
pub enum Verdict {
    Done,
    SourceRefused,
    ImageRefused,
    Trapped,
    Bound,
    InputRefused,
    /// A run of an image that ended in a way in which no compiled image ends.
    Stopped,
}

impl Verdict {
    /// The status of the program.
    pub fn code(self) -> u8
        ensures { result ≡ code_of self }
    {
        match self {
            Verdict::Done => 0,
            Verdict::SourceRefused => 3,
            Verdict::ImageRefused => 4,
            Verdict::Trapped => 5,
            Verdict::Bound => 6,
            Verdict::InputRefused => 8,
            Verdict::Stopped => 9,
        }
    }
}
