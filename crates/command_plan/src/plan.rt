// What a command has made up its mind to do, and what stops it before.
ghost use Rattle.std.specs.Prelude.{◌≡◌, string_bytes};
ghost use Rattle.command_plan.specs.declared.plan.NoPlan.TheVariants.{NoMemory};
ghost use Rattle.command_plan.specs.Plans.{planned, prints, writes};

use command_ends::Verdict;
use std::alloc::{AllocError, AllocFailed};

/// A file that is to be written.
#[derive(Drop)]
pub struct Writing {
    pub name: String,
    pub bytes: Vec<u8>,
}

/// What is to be written, printed and returned.
#[derive(Drop)]
pub struct Plan {
    pub verdict: Verdict,
    pub text: String,
    pub writing: Option<Writing>,
}

impl Plan {
    /// Prints a text and writes nothing.
    pub fn prints(verdict: Verdict, text: String) -> Plan
        ensures { planned result ≡ prints verdict (string_bytes text) }
    {
        Plan {
            verdict,
            text,
            writing: None,
        }
    }

    /// Writes a file, and prints a text.
    pub fn writes(name: String, bytes: Vec<u8>, text: String) -> Plan
        ensures { planned result ≡ writes (string_bytes name) bytes.items (string_bytes text) }
    {
        Plan {
            verdict: Verdict::Done,
            text,
            writing: Some(Writing { name, bytes }),
        }
    }
}

/// What keeps a command from a plan.
#[derive(Drop)]
pub enum NoPlan {
    NoMemory,
    /// A file could not be read, with what is to be printed.
    Unread { text: String },
}

impl From<AllocError> for NoPlan {
    ghost from_gives = { λ _ e. e ≡ NoMemory };

    fn from(_: AllocError) -> Self {
        NoPlan::NoMemory
    }
}

impl From<class_table::NoMemory> for NoPlan {
    ghost from_gives = { λ _ e. e ≡ NoMemory };

    fn from(_: class_table::NoMemory) -> Self {
        NoPlan::NoMemory
    }
}

impl<T: Drop> From<AllocFailed<T>> for NoPlan {
    ghost from_gives = { λ _ e. e ≡ NoMemory };

    fn from(_: AllocFailed<T>) -> Self {
        NoPlan::NoMemory
    }
}

/// The sizes of a memory: the order of the heap, and the depth of the stack.
#[derive(Clone, Copy, Debug, PartialEq, Eq)]
pub struct Room {
    pub heap: u64,
    pub deep: u64,
}

/// The sizes of a run: those of its memory, and the number of steps.
#[derive(Clone, Copy, Debug, PartialEq, Eq)]
pub struct Sizes {
    pub room: Room,
    pub bound: u64,
}
