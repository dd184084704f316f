// The state of the machine, and one step forward and back.
ghost use Rattle.std.specs.Prelude.{not, ◌≡◌, ◌<◌, ◌≤◌, ◌^◌, ℕ, pos, ◌↔◌, ◌+ℤ◌, ◌≤ℤ◌, ◌<ℤ◌, length, List, slice_index, slice_set, nat_lt, IsSome, IsNone, IsTrue, if◌then◌else◌, None, Some};
ghost use Rattle.rpp_words.specs.Words.{sum_of, negated};
ghost use Rattle.pisa_isa.specs.Table.{IsCell};
ghost use Rattle.pisa_isa.specs.declared.machine.Stop.TheVariants.{BadAddress};
ghost use Rattle.pisa_isa.specs.Machine.{State, core_state, fetch, row_of, reg, below_zero, exchanged_at, stride, place_moved, faced, has_cell, stop_in, stop, effect, moved, next, back, back as before, IsCode, IsState, IsNext};
ghost use Rattle.pisa_isa.specs.Directions.{row_by, has_cell_at, sum_by, turned_by, offset_by, stop_by};

use crate::cell::{Cell, Op};
use rpp_words::{
    less, shift_left, shift_right, shift_right_signed, turn_left, turn_right, wrap_add, wrap_sub,
};

/// Why the machine stopped.
#[derive(Clone, Copy, PartialEq, Eq, Debug)]
pub enum Stop {
    /// At FINISH, with direction 1 and branch register 0.
    Finished,
    /// At START, with direction -1 and branch register 0.
    Returned,
    /// At a DATA cell with this word.
    Trap(u32),
    /// At EXCH, with an address that no data cell has.
    BadAddress(u32),
    /// At this place outside the code. Counts as no step.
    OffCode(i64),
    /// After all allowed steps. `step` never returns it, and it counts as no step.
    Bound,
}

/// The place, the branch register, the direction and the registers.
#[derive(Clone, Copy, PartialEq, Eq, Debug)]
pub struct Core {
    /// The place: the number of a code cell, from 0.
    pub pc: i64,
    /// The branch register: 0, or how far the next move goes, read as signed.
    pub br: u32,
    /// Whether the direction is -1.
    pub back: bool,
    /// The registers from `$0` to `$31`.
    pub regs: [u32; 32],
}

/// The data cells, however they are kept.
pub trait Cells {
    /// Their words from cell 0 on.
    ghost words: { Self → List ℕ };

    /// How many there are.
    fn len(&self) -> u32
        ensures { result ≡ length (words self.now) };

    /// Swaps a cell with a word.
    fn exchange(&mut self, at: u32, word: &mut u32)
        requires { at < length (words self.old) }
        ensures cells { words self.new ≡ slice_set (words self.old) at word.old }
        ensures word { word.new ≡ slice_index (words self.old) at };
}

/// Whether a place is in the code. A place below 0 is a large number when it is read without its
/// sign, so that one test is enough.
fn is_in_code(code: &[Cell], pc: i64) -> bool
    requires { IsCode code.now }
    ensures answer { IsTrue result ↔ IsSome (fetch code.now pc) }
    ensures low { IsTrue result → pos 0 ≤ℤ pc }
    ensures high { IsTrue result → pc <ℤ pos (length code.now) }
{
    pc.cast_unsigned() < code.len() as u64
}

/// The cell at a code address.
fn cell_at(code: &[Cell], pc: i64) -> &Cell
    requires code { IsCode code.now }
    requires there { IsSome (fetch code.now pc) }
    ensures found { fetch code.now pc ≡ Some result.now }
    ensures cell { IsCell result.now }
{
    &code[pc as usize]
}

/// How far a move goes.
fn move_length(br: u32) -> i64
    ensures value { result ≡ stride br }
    ensures low { pos 0 ≤ℤ (result +ℤ pos (2 ^ 31)) }
    ensures high { result ≤ℤ pos (2 ^ 31) }
{
    if br == 0 {
        1
    } else {
        i64::from(br.cast_signed())
    }
}

/// The place after a move.
fn place_after(pc: i64, br: u32, back: bool) -> i64
    requires low { pos 0 ≤ℤ (pc +ℤ pos (2 ^ 32)) }
    requires high { pc ≤ℤ pos (2 ^ 32) }
    ensures { result ≡ place_moved back pc br }
{
    if back {
        pc - move_length(br)
    } else {
        pc + move_length(br)
    }
}

/// Goes to a code address.
fn stand_at(core: &mut Core, pc: i64)
    ensures { core.new ≡ record core.old { pc = pc } }
{
    core.pc = pc;
}

/// Moves on from a place by the direction.
fn advance(core: &mut Core, pc: i64)
    requires low { pos 0 ≤ℤ (pc +ℤ pos (2 ^ 32)) }
    requires high { pc ≤ℤ pos (2 ^ 32) }
    ensures { core.new ≡ record core.old { pc = place_moved core.old.back pc core.old.br } }
{
    core.pc = place_after(pc, core.br, core.back);
}

/// The place before the last move, if `back` is the direction against it.
fn place_before(core: &Core, back: bool) -> i64
    requires low { pos 0 ≤ℤ (core.now.pc +ℤ pos (2 ^ 32)) }
    requires high { core.now.pc ≤ℤ pos (2 ^ 32) }
    ensures { result ≡ place_moved back core.now.pc core.now.br }
{
    place_after(core.pc, core.br, back)
}

/// A word as a signed number is below 0.
fn is_below_zero(x: u32) -> bool
    ensures { result ≡ below_zero x }
{
    x >= 1 << 31
}

/// Adds an offset to the branch register if a branch is taken.
fn branch_if(core: &mut Core, taken: bool, offset: u32)
    ensures { core.new ≡ record core.old {
      br = if taken then sum_of core.old.br offset
          else core.old.br;
    } }
{
    if taken {
        core.br = wrap_add(core.br, offset);
    }
}

/// Adds an offset to the branch register, negates it and turns the direction.
fn reverse(core: &mut Core, offset: u32)
    ensures { core.new ≡ record core.old
        { br = negated (sum_of core.old.br offset); back = not core.old.back } }
{
    core.br = wrap_sub(0, wrap_add(core.br, offset));
    core.back = !core.back;
}

/// Swaps a register with the data cell at an address, or stops if there is none.
fn exchange<C: Cells>(core: &mut Core, a: usize, at: u32, cells: &mut C) -> Option<Stop>
    requires { a < 32 }
    ensures stops { result ≡ (if nat_lt at (length (C.words cells.old)) then None
        else Some (BadAddress at)) }
    ensures stays { IsSome result → core_state core.new (C.words cells.new)
        ≡ core_state core.old (C.words cells.old) }
    ensures swaps { IsTrue (nat_lt at (length (C.words cells.old)))
        → core_state core.new (C.words cells.new)
        ≡ exchanged_at (core_state core.old (C.words cells.old)) a at }
    ensures place { core.new.pc ≡ core.old.pc }
{
    if at >= cells.len() {
        return Some(Stop::BadAddress(at));
    }
    let mut word = core.regs[a];
    cells.exchange(at, &mut word);
    core.regs[a] = word;
    None
}

/// The sum, or for direction -1 the difference.
fn sum_by(back: bool, x: u32, y: u32) -> u32
    ensures { result ≡ sum_by back x y }
{
    if back { wrap_sub(x, y) } else { wrap_add(x, y) }
}

/// The word turned left, or for direction -1 turned right.
fn turn_by(back: bool, x: u32, n: u32) -> u32
    ensures { result ≡ turned_by back x n }
{
    if back {
        turn_right(x, n)
    } else {
        turn_left(x, n)
    }
}

/// What a cell's word adds in a direction.
fn offset_by(back: bool, i: u32) -> u32
    ensures { result ≡ offset_by back i }
{
    if back { wrap_sub(0, i) } else { i }
}

/// The effect of a row in a direction, if its first two registers hold `x` and `y`, or why the
/// machine stops there, and then nothing changes. It is the whole work of a step except the move,
/// so that one look at the instruction decides both.
#[inline(always)]
fn act<C: Cells>(
    core: &mut Core,
    op: Op,
    back: bool,
    a: usize,
    x: u32,
    y: u32,
    c: usize,
    i: u32,
    cells: &mut C,
) -> Option<Stop>
    requires a { a < 32 }
    requires c { c < 32 }
    requires x { x ≡ slice_index core.old.regs a }
    ensures stops { result ≡ stop_by op back y i (core_state core.old (C.words cells.old)) }
    ensures stays { IsSome result → core_state core.new (C.words cells.new)
        ≡ core_state core.old (C.words cells.old) }
    ensures acts { IsTrue (has_cell_at op y (core_state core.old (C.words cells.old)))
        → core_state core.new (C.words cells.new)
        ≡ row_by op back a x y c i (core_state core.old (C.words cells.old)) }
    ensures place { core.new.pc ≡ core.old.pc }
{
    let o = offset_by(back, i);
    match op {
        Op::Add => core.regs[a] = sum_by(back, x, y),
        Op::Sub => core.regs[a] = sum_by(!back, x, y),
        Op::Xor => core.regs[a] = x ^ y,
        Op::Neg => core.regs[a] = wrap_sub(0, x),
        Op::Addi => core.regs[a] = wrap_add(x, o),
        Op::Xori => core.regs[a] = x ^ i,
        Op::Rl => core.regs[a] = turn_by(back, x, i),
        Op::Rr => core.regs[a] = turn_by(!back, x, i),
        Op::Rlv => core.regs[a] = turn_by(back, x, y),
        Op::Rrv => core.regs[a] = turn_by(!back, x, y),
        Op::Andx => core.regs[a] = x ^ (y & core.regs[c]),
        Op::Orx => core.regs[a] = x ^ (y | core.regs[c]),
        Op::Norx => core.regs[a] = x ^ !(y | core.regs[c]),
        Op::Sltx => core.regs[a] = x ^ u32::from(less(y, core.regs[c])),
        Op::Andix => core.regs[a] = x ^ (y & i),
        Op::Orix => core.regs[a] = x ^ (y | i),
        Op::Sllx => core.regs[a] = x ^ shift_left(y, i),
        Op::Srlx => core.regs[a] = x ^ shift_right(y, i),
        Op::Srax => core.regs[a] = x ^ shift_right_signed(y, i),
        Op::Sllvx => core.regs[a] = x ^ shift_left(y, core.regs[c]),
        Op::Srlvx => core.regs[a] = x ^ shift_right(y, core.regs[c]),
        Op::Sravx => core.regs[a] = x ^ shift_right_signed(y, core.regs[c]),
        Op::Exch => return exchange(core, a, y, cells),
        Op::Swapbr => (core.regs[a], core.br) = (core.br, x),
        Op::Bra => branch_if(core, true, o),
        Op::Rbra => reverse(core, o),
        Op::Beq => branch_if(core, x == y, o),
        Op::Bne => branch_if(core, x != y, o),
        Op::Bgez => branch_if(core, !is_below_zero(x), o),
        Op::Bgtz => branch_if(core, !(is_below_zero(x) || x == 0), o),
        Op::Blez => branch_if(core, is_below_zero(x) || x == 0, o),
        Op::Bltz => branch_if(core, is_below_zero(x), o),
        Op::Start if back && core.br == 0 => return Some(Stop::Returned),
        Op::Finish if !back && core.br == 0 => return Some(Stop::Finished),
        Op::Start | Op::Finish => {}
        Op::DataWord => return Some(Stop::Trap(i)),
    }
    None
}

/// The effect of a cell in a direction, or why the machine stops there, and then nothing changes.
#[inline(always)]
fn act_by<C: Cells>(core: &mut Core, cell: &Cell, back: bool, cells: &mut C) -> Option<Stop>
    requires cell { IsCell cell.now }
    ensures stops { result ≡ stop_by cell.now.op back
        (reg (core_state core.old (C.words cells.old)) cell.now.b) cell.now.imm
        (core_state core.old (C.words cells.old)) }
    ensures stays { IsSome result → core_state core.new (C.words cells.new)
        ≡ core_state core.old (C.words cells.old) }
    ensures acts { IsTrue (has_cell cell.now.op cell.now.b (core_state core.old (C.words cells.old)))
        → core_state core.new (C.words cells.new)
        ≡ row_of (faced back cell.now) (core_state core.old (C.words cells.old)) }
    ensures place { core.new.pc ≡ core.old.pc }
{
    let (a, c) = (cell.a as usize, cell.c as usize);
    let x = core.regs[a];
    let y = core.regs[cell.b as usize];
    act(core, cell.op, back, a, x, y, c, cell.imm, cells)
}

/// One step at a cell, if `back` says that the machine faces direction -1, or why it stops, and
/// then nothing changes.
#[inline(always)]
fn step_by<C: Cells>(core: &mut Core, cell: &Cell, back: bool, cells: &mut C) -> Option<Stop>
    requires cell { IsCell cell.now }
    requires back { back ≡ core.old.back }
    requires low { pos 0 ≤ℤ core.old.pc }
    requires high { core.old.pc ≤ℤ pos (2 ^ 32) }
    ensures stops { result ≡ stop_in cell.now.op cell.now (core_state core.old (C.words cells.old)) }
    ensures stays { IsSome result → core_state core.new (C.words cells.new)
        ≡ core_state core.old (C.words cells.old) }
    ensures goes { IsNone result
        → core_state core.new (C.words cells.new)
        ≡ moved (effect cell.now (core_state core.old (C.words cells.old))) }
{
    let pc = core.pc;
    let stop = act_by(core, cell, back, cells);
    if stop.is_some() {
        return stop;
    }
    advance(core, pc);
    None
}

/// Makes one step, or returns why the machine stops, and then changes nothing.
#[inline(always)]
pub fn step<C: Cells>(core: &mut Core, code: &[Cell], cells: &mut C) -> Option<Stop>
    requires { IsCode code.now }
    ensures stops { result ≡ stop code.now (core_state core.old (C.words cells.old)) }
    ensures stays { IsSome result
        → core_state core.new (C.words cells.new) ≡ core_state core.old (C.words cells.old) }
    ensures goes { IsNone result
        → core_state core.new (C.words cells.new) ≡ next code.now (core_state core.old (C.words cells.old)) }
{
    if !is_in_code(code, core.pc) {
        return Some(Stop::OffCode(core.pc));
    }
    let cell = cell_at(code, core.pc);
    if core.back {
        step_by(core, cell, true, cells)
    } else {
        step_by(core, cell, false, cells)
    }
}

/// Undoes a step that was made, if `back` says that it was made for direction 1: the move, and
/// then the effect, each for the other direction. At the ends of a run the effect is nothing, so
/// that it does not matter that `act` would stop there.
#[inline(always)]
fn unstep_by<C: Cells>(core: &mut Core, code: &[Cell], back: bool, cells: &mut C)
    requires code { IsCode code.now }
    requires made { IsNext code.now (core_state core.old (C.words cells.old)) }
    requires back { back ≡ not core.old.back }
    ensures back { core_state core.new (C.words cells.new)
        ≡ before code.now (core_state core.old (C.words cells.old)) }
    ensures undoes { (m : State) → IsState m → stop code.now m ≡ None
        → core_state core.old (C.words cells.old) ≡ next code.now m
        → core_state core.new (C.words cells.new) ≡ m }
{
    let pc = place_before(core, back);
    let _stop = act_by(core, cell_at(code, pc), back, cells);
    stand_at(core, pc);
}

/// Undoes a step that was made.
pub fn unstep<C: Cells>(core: &mut Core, code: &[Cell], cells: &mut C)
    requires code { IsCode code.now }
    requires made { IsNext code.now (core_state core.old (C.words cells.old)) }
    ensures back { core_state core.new (C.words cells.new)
        ≡ back code.now (core_state core.old (C.words cells.old)) }
    ensures undoes { (m : State) → IsState m → stop code.now m ≡ None
        → core_state core.old (C.words cells.old) ≡ next code.now m
        → core_state core.new (C.words cells.new) ≡ m }
{
    if core.back {
        unstep_by(core, code, false, cells)
    } else {
        unstep_by(core, code, true, cells)
    }
}
