// The cells of a fragment before its place and its routines' places are known.
use code_conventions::Cell;

/// A cell of a fragment: an instruction of its own, a call of a routine by its number, or a part of
/// a call by a register. Such a part is the same in both directions, takes its neighbour's code
/// address from `$2`, or is half of a turn.
#[derive(Clone, Copy, PartialEq, Eq, Debug)]
pub enum Symbol {
    Own(Cell),
    Enter(u32, bool),
    Fixed(Cell),
    Aim(bool),
    Turn(bool, bool, bool),
}

/// A static word of an image: itself, or the code address of a routine.
#[derive(Clone, Copy, PartialEq, Eq, Debug)]
pub enum StaticWord {
    Word(u32),
    Routine(u32),
}
