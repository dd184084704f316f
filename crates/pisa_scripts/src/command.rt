// The commands of a debugger.

/// A command of a debugger. Numbers of moves are the most that are made; a code address is the
/// number of a code cell.
#[derive(Clone, Copy, PartialEq, Eq, Debug)]
pub enum Command {
    /// `step N`: makes steps.
    Step(u64),
    /// `back N`: undoes steps.
    Back(u64),
    /// `to P N`: makes steps until after one the machine is at the code address.
    To(i64, u64),
    /// `backto P N`: undoes steps until after one the machine is at the code address.
    BackTo(i64, u64),
    /// `regs`: prints the registers that are not 0.
    Regs,
    /// `cells A N`: prints the cells from one on, at most so many.
    Cells(u32, u32),
}
