// The rows of a step on the parts of a core, so that a loop can hold the place and the branch
// register by themselves.
ghost use Rattle.std.specs.Prelude.{◌≡◌, ◌<◌, ◌≤◌, ◌^◌, pos, ◌+ℤ◌, ◌≤ℤ◌, IsNone, IsSome, IsTrue, if◌then◌else◌, slice_index, slice_set, length};
ghost use Rattle.pisa_isa.specs.rpp_words.Words.{sum_of};
ghost use Rattle.pisa_isa.specs.Table.{IsCell};
ghost use Rattle.pisa_isa.specs.Machine.{below_zero, stride, place_moved, stop_in, effect, moved};
ghost use Rattle.pisa_isa.specs.Directions.{row_by, has_cell_at, sum_by, turned_by, offset_by, stop_by};
ghost use Rattle.pisa_machine.specs.Ways.{state_with, stop_of, back_behind};

use pisa_isa::{
    Cell, Cells, Op, Stop, less, shift_left, shift_right, shift_right_signed, turn_left,
    turn_right, wrap_add, wrap_sub,
};

/// What comes of a row.
#[derive(Clone, Copy)]
pub(crate) enum Outcome {
    /// The run goes on in its direction.
    Goes,
    /// The direction has turned.
    Turns,
    /// The machine stops, and nothing has changed.
    Stops(Stop),
}

/// A place, the branch register, and how far a move goes by it.
#[derive(Drop)]
pub(crate) struct Way {
    pub(crate) pc: i64,
    pub(crate) br: u32,
    pub(crate) length: i64,
    ghost is_length: { length ≡ stride br },
    ghost low: { pos 0 ≤ℤ (length +ℤ pos (2 ^ 31)) },
    ghost high: { length ≤ℤ pos (2 ^ 31) },
}

/// How far a move goes.
fn move_length(br: u32) -> i64
    ensures value { result ≡ stride br }
    ensures low { pos 0 ≤ℤ (result +ℤ pos (2 ^ 31)) }
    ensures high { result ≤ℤ pos (2 ^ 31) }
{
    if br == 0 {
        1
    } else {
        i64::from(br.cast_signed())
    }
}

/// A word as a signed number is below 0.
fn is_below_zero(x: u32) -> bool
    ensures { result ≡ below_zero x }
{
    x >= 1 << 31
}

/// The sum, or for direction -1 the difference.
fn sum_by(back: bool, x: u32, y: u32) -> u32
    ensures { result ≡ sum_by back x y }
{
    if back { wrap_sub(x, y) } else { wrap_add(x, y) }
}

/// The word turned left, or for direction -1 turned right.
fn turn_by(back: bool, x: u32, n: u32) -> u32
    ensures { result ≡ turned_by back x n }
{
    if back {
        turn_right(x, n)
    } else {
        turn_left(x, n)
    }
}

/// What a cell's word adds in a direction.
fn offset_by(back: bool, i: u32) -> u32
    ensures { result ≡ offset_by back i }
{
    if back { wrap_sub(0, i) } else { i }
}

impl Way {
    /// Goes to a code address with a branch register.
    #[inline(always)]
    pub(crate) fn at(pc: i64, br: u32) -> Way
        ensures place { result.pc ≡ pc }
        ensures register { result.br ≡ br }
    {
        Way {
            pc,
            br,
            length: move_length(br),
        }
    }

    /// Sets the branch register.
    #[inline(always)]
    fn set(&mut self, br: u32)
        ensures place { self.new.pc ≡ self.old.pc }
        ensures register { self.new.br ≡ br }
    {
        *self = Way::at(self.pc, br);
    }

    /// Adds an offset to the branch register if a branch is taken.
    #[inline(always)]
    fn branch_if(&mut self, taken: bool, offset: u32)
        ensures place { self.new.pc ≡ self.old.pc }
        ensures register { self.new.br ≡ (if taken then sum_of self.old.br offset else self.old.br) }
    {
        if taken {
            self.set(wrap_add(self.br, offset));
        }
    }

    /// Moves on by the direction.
    #[inline(always)]
    fn advance(&mut self, back: bool)
        requires low { pos 0 ≤ℤ (self.old.pc +ℤ pos (2 ^ 32)) }
        requires high { self.old.pc ≤ℤ pos (2 ^ 32) }
        ensures place { self.new.pc ≡ place_moved back self.old.pc self.old.br }
        ensures register { self.new.br ≡ self.old.br }
    {
        self.pc = if back {
            self.pc - self.length
        } else {
            self.pc + self.length
        };
    }
}

/// The word in a cell's first register.
#[inline(always)]
fn first(regs: &[u32; 32], cell: &Cell) -> u32
    requires { IsCell cell.now }
    ensures { result ≡ slice_index regs.now cell.now.a }
{
    regs[cell.a as usize]
}

/// The word in its second register.
#[inline(always)]
fn second(regs: &[u32; 32], cell: &Cell) -> u32
    requires { IsCell cell.now }
    ensures { result ≡ slice_index regs.now cell.now.b }
{
    regs[cell.b as usize]
}

/// The word in its third register.
#[inline(always)]
fn third(regs: &[u32; 32], cell: &Cell) -> u32
    requires { IsCell cell.now }
    ensures { result ≡ slice_index regs.now cell.now.c }
{
    regs[cell.c as usize]
}

/// Puts a word into its first register.
#[inline(always)]
fn put(regs: &mut [u32; 32], cell: &Cell, word: u32)
    requires { IsCell cell.now }
    ensures { regs.new ≡ slice_set regs.old cell.now.a word }
{
    regs[cell.a as usize] = word;
}

/// The effect of a cell's row in a direction, or why the machine stops there, and then nothing
/// changes. Each arm reads only the operands that it needs.
#[inline(always)]
fn act<C: Cells>(
    regs: &mut [u32; 32],
    way: &mut Way,
    cell: &Cell,
    back: bool,
    cells: &mut C,
) -> Outcome
    requires { IsCell cell.now }
    ensures stops { stop_of result
        ≡ stop_by cell.now.op back (slice_index regs.old cell.now.b) cell.now.imm
        (state_with way.old.pc way.old.br back regs.old (C.words cells.old)) }
    ensures stays { IsSome (stop_of result)
        → state_with way.new.pc way.new.br back regs.new (C.words cells.new)
        ≡ state_with way.old.pc way.old.br back regs.old (C.words cells.old) }
    ensures acts { IsTrue (has_cell_at cell.now.op (slice_index regs.old cell.now.b)
        (state_with way.old.pc way.old.br back regs.old (C.words cells.old)))
        → state_with way.new.pc way.new.br (back_behind result back) regs.new (C.words cells.new)
        ≡ row_by cell.now.op back cell.now.a (slice_index regs.old cell.now.a)
        (slice_index regs.old cell.now.b) cell.now.c cell.now.imm
        (state_with way.old.pc way.old.br back regs.old (C.words cells.old)) }
    ensures place { way.new.pc ≡ way.old.pc }
{
    match cell.op {
        Op::Add => put(
            regs,
            cell,
            sum_by(back, first(regs, cell), second(regs, cell)),
        ),
        Op::Sub => put(
            regs,
            cell,
            sum_by(!back, first(regs, cell), second(regs, cell)),
        ),
        Op::Xor => put(regs, cell, first(regs, cell) ^ second(regs, cell)),
        Op::Neg => put(regs, cell, wrap_sub(0, first(regs, cell))),
        Op::Addi => put(
            regs,
            cell,
            wrap_add(first(regs, cell), offset_by(back, cell.imm)),
        ),
        Op::Xori => put(regs, cell, first(regs, cell) ^ cell.imm),
        Op::Rl => put(regs, cell, turn_by(back, first(regs, cell), cell.imm)),
        Op::Rr => put(regs, cell, turn_by(!back, first(regs, cell), cell.imm)),
        Op::Rlv => put(
            regs,
            cell,
            turn_by(back, first(regs, cell), second(regs, cell)),
        ),
        Op::Rrv => put(
            regs,
            cell,
            turn_by(!back, first(regs, cell), second(regs, cell)),
        ),
        Op::Andx => put(
            regs,
            cell,
            first(regs, cell) ^ (second(regs, cell) & third(regs, cell)),
        ),
        Op::Orx => put(
            regs,
            cell,
            first(regs, cell) ^ (second(regs, cell) | third(regs, cell)),
        ),
        Op::Norx => put(
            regs,
            cell,
            first(regs, cell) ^ !(second(regs, cell) | third(regs, cell)),
        ),
        Op::Sltx => put(
            regs,
            cell,
            first(regs, cell) ^ u32::from(less(second(regs, cell), third(regs, cell))),
        ),
        Op::Andix => put(
            regs,
            cell,
            first(regs, cell) ^ (second(regs, cell) & cell.imm),
        ),
        Op::Orix => put(
            regs,
            cell,
            first(regs, cell) ^ (second(regs, cell) | cell.imm),
        ),
        Op::Sllx => put(
            regs,
            cell,
            first(regs, cell) ^ shift_left(second(regs, cell), cell.imm),
        ),
        Op::Srlx => put(
            regs,
            cell,
            first(regs, cell) ^ shift_right(second(regs, cell), cell.imm),
        ),
        Op::Srax => put(
            regs,
            cell,
            first(regs, cell) ^ shift_right_signed(second(regs, cell), cell.imm),
        ),
        Op::Sllvx => put(
            regs,
            cell,
            first(regs, cell) ^ shift_left(second(regs, cell), third(regs, cell)),
        ),
        Op::Srlvx => put(
            regs,
            cell,
            first(regs, cell) ^ shift_right(second(regs, cell), third(regs, cell)),
        ),
        Op::Sravx => put(
            regs,
            cell,
            first(regs, cell) ^ shift_right_signed(second(regs, cell), third(regs, cell)),
        ),
        Op::Exch if second(regs, cell) >= cells.len() => return Outcome::Stops(Stop::BadAddress(
            second(regs, cell),
        )),
        Op::Exch => cells.exchange(second(regs, cell), &mut regs[cell.a as usize]),
        Op::Swapbr => {
            let word = first(regs, cell);
            put(regs, cell, way.br);
            way.set(word);
        }
        Op::Bra => way.branch_if(true, offset_by(back, cell.imm)),
        Op::Rbra => {
            way.set(wrap_sub(0, wrap_add(way.br, offset_by(back, cell.imm))));
            return Outcome::Turns;
        }
        Op::Beq => way.branch_if(
            first(regs, cell) == second(regs, cell),
            offset_by(back, cell.imm),
        ),
        Op::Bne => way.branch_if(
            first(regs, cell) != second(regs, cell),
            offset_by(back, cell.imm),
        ),
        Op::Bgez => way.branch_if(!is_below_zero(first(regs, cell)), offset_by(back, cell.imm)),
        Op::Bgtz => way.branch_if(
            !(is_below_zero(first(regs, cell)) || first(regs, cell) == 0),
            offset_by(back, cell.imm),
        ),
        Op::Blez => way.branch_if(
            is_below_zero(first(regs, cell)) || first(regs, cell) == 0,
            offset_by(back, cell.imm),
        ),
        Op::Bltz => way.branch_if(is_below_zero(first(regs, cell)), offset_by(back, cell.imm)),
        Op::Start if back && way.br == 0 => return Outcome::Stops(Stop::Returned),
        Op::Finish if !back && way.br == 0 => return Outcome::Stops(Stop::Finished),
        Op::Start | Op::Finish => {}
        Op::DataWord => return Outcome::Stops(Stop::Trap(cell.imm)),
    }
    Outcome::Goes
}

/// The effect of a cell in a direction, or why the machine stops, and then nothing changes.
#[inline(always)]
fn act_by<C: Cells>(
    regs: &mut [u32; 32],
    way: &mut Way,
    cell: &Cell,
    back: bool,
    cells: &mut C,
) -> Outcome
    requires cell { IsCell cell.now }
    ensures stops { stop_of result ≡ stop_in cell.now.op cell.now
        (state_with way.old.pc way.old.br back regs.old (C.words cells.old)) }
    ensures stays { IsSome (stop_of result)
        → state_with way.new.pc way.new.br back regs.new (C.words cells.new)
        ≡ state_with way.old.pc way.old.br back regs.old (C.words cells.old) }
    ensures acts { IsNone (stop_of result)
        → state_with way.new.pc way.new.br (back_behind result back) regs.new (C.words cells.new)
        ≡ effect cell.now (state_with way.old.pc way.old.br back regs.old (C.words cells.old)) }
    ensures place { way.new.pc ≡ way.old.pc }
{
    act(regs, way, cell, back, cells)
}

/// One step at a cell in a direction, or why the machine stops, and then nothing changes.
#[inline(always)]
pub(crate) fn step_by<C: Cells>(
    regs: &mut [u32; 32],
    way: &mut Way,
    cell: &Cell,
    back: bool,
    cells: &mut C,
) -> Outcome
    requires cell { IsCell cell.now }
    requires low { pos 0 ≤ℤ way.old.pc }
    requires high { way.old.pc ≤ℤ pos (2 ^ 32) }
    ensures stops { stop_of result ≡ stop_in cell.now.op cell.now
        (state_with way.old.pc way.old.br back regs.old (C.words cells.old)) }
    ensures stays { IsSome (stop_of result)
        → state_with way.new.pc way.new.br back regs.new (C.words cells.new)
        ≡ state_with way.old.pc way.old.br back regs.old (C.words cells.old) }
    ensures goes { IsNone (stop_of result)
        → state_with way.new.pc way.new.br (back_behind result back) regs.new (C.words cells.new)
        ≡ moved (effect cell.now (state_with way.old.pc way.old.br back regs.old (C.words cells.old))) }
{
    let outcome = act_by(regs, way, cell, back, cells);
    match outcome {
        Outcome::Goes => way.advance(back),
        Outcome::Turns => way.advance(!back),
        Outcome::Stops(_) => {}
    }
    outcome
}
