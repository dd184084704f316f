// The instructions.
ghost use Rattle.std.specs.Prelude.{◌≡◌, ◌↔◌, IsTrue};
ghost use Rattle.pisa_isa.specs.Table.{IsInRange, inverse_of, inverse_op, inverse_word, is_one_to_one, has_a, has_b, c_is_source, register_end, imm_end};

use rpp_words::wrap_sub;

/// What an instruction does: the rows of the Pendulum instruction set PISA (Vieri; Axelsen, Glück
/// and Yokoyama), as the thesis on ROOPL++ (Cservenka) uses it. `d` is the register in `a`, `s` the
/// one in `b`, `t` the one in `c`, `i` the word, `n` the amount and `o` the offset in `imm`. Each
/// effect is that of direction 1; in the other direction a cell acts as its inverse.
#[derive(Clone, Copy, PartialEq, Eq, Debug)]
pub enum Op {
    /// `ADD d s`: adds s.
    Add,
    /// `SUB d s`: subtracts s.
    Sub,
    /// `XOR d s`: xors with s.
    Xor,
    /// `NEG d`: negates.
    Neg,
    /// `ADDI d i`: adds the word.
    Addi,
    /// `XORI d i`: xors with the word.
    Xori,
    /// `RL d n`: turns left.
    Rl,
    /// `RR d n`: turns right.
    Rr,
    /// `RLV d s`: turns left by the low five bits of s.
    Rlv,
    /// `RRV d s`: turns right by the low five bits of s.
    Rrv,
    /// `ANDX d s t`: xors with s and t.
    Andx,
    /// `ORX d s t`: xors with s or t.
    Orx,
    /// `NORX d s t`: xors with the complement of s or t.
    Norx,
    /// `SLTX d s t`: xors with 1 if s is below t as signed numbers.
    Sltx,
    /// `ANDIX d s i`: xors with s and the word.
    Andix,
    /// `ORIX d s i`: xors with s or the word.
    Orix,
    /// `SLLX d s n`: xors with s shifted left.
    Sllx,
    /// `SRLX d s n`: xors with s shifted right, zeros coming in.
    Srlx,
    /// `SRAX d s n`: xors with s shifted right, the sign coming in.
    Srax,
    /// `SLLVX d s t`: as SLLX, by the low five bits of t.
    Sllvx,
    /// `SRLVX d s t`: as SRLX, by the low five bits of t.
    Srlvx,
    /// `SRAVX d s t`: as SRAX, by the low five bits of t.
    Sravx,
    /// `EXCH d s`: swaps d with the data cell at the address in s.
    Exch,
    /// `SWAPBR d`: swaps d with the branch register.
    Swapbr,
    /// `BRA o`: adds the offset to the branch register.
    Bra,
    /// `RBRA o`: as BRA, then negates the branch register and turns the direction.
    Rbra,
    /// `BEQ d s o`: as BRA if d equals s.
    Beq,
    /// `BNE d s o`: as BRA if d differs from s.
    Bne,
    /// `BGEZ d o`: as BRA if d is at least 0, signed.
    Bgez,
    /// `BGTZ d o`: as BRA if d is above 0, signed.
    Bgtz,
    /// `BLEZ d o`: as BRA if d is at most 0, signed.
    Blez,
    /// `BLTZ d o`: as BRA if d is below 0, signed.
    Bltz,
    /// `START`: where a run begins; stops one that comes backward.
    Start,
    /// `FINISH`: stops a run that comes forward.
    Finish,
    /// `DATA i`: stops with the word.
    DataWord,
}

/// All rows, in their order.
pub const ROWS: [Op; 35] = [
    Op::Add,
    Op::Sub,
    Op::Xor,
    Op::Neg,
    Op::Addi,
    Op::Xori,
    Op::Rl,
    Op::Rr,
    Op::Rlv,
    Op::Rrv,
    Op::Andx,
    Op::Orx,
    Op::Norx,
    Op::Sltx,
    Op::Andix,
    Op::Orix,
    Op::Sllx,
    Op::Srlx,
    Op::Srax,
    Op::Sllvx,
    Op::Srlvx,
    Op::Sravx,
    Op::Exch,
    Op::Swapbr,
    Op::Bra,
    Op::Rbra,
    Op::Beq,
    Op::Bne,
    Op::Bgez,
    Op::Bgtz,
    Op::Blez,
    Op::Bltz,
    Op::Start,
    Op::Finish,
    Op::DataWord,
];

/// An instruction with its operands. An unused field is 0.
#[derive(Clone, Copy, PartialEq, Eq, Debug)]
pub struct Cell {
    /// The row.
    pub op: Op,
    /// The first register, from 0 to 31.
    pub a: u8,
    /// The second register, from 0 to 31.
    pub b: u8,
    /// The third register, from 0 to 31.
    pub c: u8,
    /// A word, an amount from 0 to 31, or a signed offset: target's place minus this cell's.
    pub imm: u32,
}

impl Cell {
    /// The instruction that undoes this one: the inverse row with the same operands, ADDI with the
    /// negated word, a branch and RBRA with the negated offset.
    pub fn inverse(self) -> Cell
        ensures { result ≡ inverse_of self }
    {
        Cell {
            op: inverse_op(self.op),
            imm: inverse_word(self.op, self.imm),
            ..self
        }
    }

    /// Whether its fields are in the ranges of its row.
    pub fn is_in_range(&self) -> bool
        ensures { IsTrue result ↔ IsInRange self.now }
    {
        let (has_a, has_b, has_c) = registers(self.op);
        self.a < register_end(has_a)
            && self.b < register_end(has_b)
            && self.c < register_end(has_c)
            && u64::from(self.imm) < imm_end(self.op)
    }

    /// Whether its target is none of its sources.
    pub fn is_one_to_one(&self) -> bool
        ensures { result ≡ is_one_to_one self.now }
    {
        match self.op {
            Op::Add
            | Op::Sub
            | Op::Xor
            | Op::Rlv
            | Op::Rrv
            | Op::Andix
            | Op::Orix
            | Op::Sllx
            | Op::Srlx
            | Op::Srax
            | Op::Exch => { self.a != self.b }
            Op::Andx | Op::Orx | Op::Norx | Op::Sltx | Op::Sllvx | Op::Srlvx | Op::Sravx => {
                self.a != self.b && self.a != self.c
            }
            _ => true,
        }
    }
}

/// The row that undoes a row.
fn inverse_op(op: Op) -> Op
    ensures { result ≡ inverse_op op }
{
    match op {
        Op::Add => Op::Sub,
        Op::Sub => Op::Add,
        Op::Rl => Op::Rr,
        Op::Rr => Op::Rl,
        Op::Rlv => Op::Rrv,
        Op::Rrv => Op::Rlv,
        Op::Start => Op::Finish,
        Op::Finish => Op::Start,
        _ => op,
    }
}

/// The word of the instruction that undoes a row's.
fn inverse_word(op: Op, imm: u32) -> u32
    ensures { result ≡ inverse_word op imm }
{
    match op {
        Op::Addi
        | Op::Bra
        | Op::Rbra
        | Op::Beq
        | Op::Bne
        | Op::Bgez
        | Op::Bgtz
        | Op::Blez
        | Op::Bltz => wrap_sub(0, imm),
        _ => imm,
    }
}

/// The end of the range of a register's number, if a row has it or not.
fn register_end(has: bool) -> u8
    ensures { result ≡ register_end has }
{
    if has { 32 } else { 1 }
}

/// Which of `a`, `b` and `c` name a register.
fn registers(op: Op) -> (bool, bool, bool)
    ensures { result ≡ (has_a op, has_b op, c_is_source op) }
{
    match op {
        Op::Bra | Op::Rbra | Op::Start | Op::Finish | Op::DataWord => (false, false, false),
        Op::Neg
        | Op::Addi
        | Op::Xori
        | Op::Rl
        | Op::Rr
        | Op::Swapbr
        | Op::Bgez
        | Op::Bgtz
        | Op::Blez
        | Op::Bltz => (true, false, false),
        Op::Andx | Op::Orx | Op::Norx | Op::Sltx | Op::Sllvx | Op::Srlvx | Op::Sravx => {
            (true, true, true)
        }
        _ => (true, true, false),
    }
}

/// The end of the range of `imm`.
fn imm_end(op: Op) -> u64
    ensures { result ≡ imm_end op }
{
    match op {
        Op::Rl | Op::Rr | Op::Sllx | Op::Srlx | Op::Srax => 32,
        Op::Addi
        | Op::Xori
        | Op::Andix
        | Op::Orix
        | Op::Bra
        | Op::Rbra
        | Op::Beq
        | Op::Bne
        | Op::Bgez
        | Op::Bgtz
        | Op::Blez
        | Op::Bltz
        | Op::DataWord => 1 << 32,
        _ => 1,
    }
}
