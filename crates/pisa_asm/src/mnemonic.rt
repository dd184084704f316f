// The mnemonics.
ghost use Rattle.std.specs.Prelude.{◌≡◌};
ghost use Rattle.pisa_asm.specs.Mnemonics.{mnemonic, row_named};

use pisa_isa::{Op, ROWS};

/// The mnemonic of a row.
#[tactic(auto, unfolding(crate::specs::Mnemonics::mnemonic))]
pub fn mnemonic(op: Op) -> &'static str
    ensures { result.now ≡ mnemonic op }
{
    match op {
        Op::Add => "ADD",
        Op::Sub => "SUB",
        Op::Xor => "XOR",
        Op::Neg => "NEG",
        Op::Addi => "ADDI",
        Op::Xori => "XORI",
        Op::Rl => "RL",
        Op::Rr => "RR",
        Op::Rlv => "RLV",
        Op::Rrv => "RRV",
        Op::Andx => "ANDX",
        Op::Orx => "ORX",
        Op::Norx => "NORX",
        Op::Sltx => "SLTX",
        Op::Andix => "ANDIX",
        Op::Orix => "ORIX",
        Op::Sllx => "SLLX",
        Op::Srlx => "SRLX",
        Op::Srax => "SRAX",
        Op::Sllvx => "SLLVX",
        Op::Srlvx => "SRLVX",
        Op::Sravx => "SRAVX",
        Op::Exch => "EXCH",
        Op::Swapbr => "SWAPBR",
        Op::Bra => "BRA",
        Op::Rbra => "RBRA",
        Op::Beq => "BEQ",
        Op::Bne => "BNE",
        Op::Bgez => "BGEZ",
        Op::Bgtz => "BGTZ",
        Op::Blez => "BLEZ",
        Op::Bltz => "BLTZ",
        Op::Start => "START",
        Op::Finish => "FINISH",
        Op::DataWord => "DATA",
    }
}

/// The row of this mnemonic.
pub fn row_named(word: &[u8]) -> Option<Op>
    ensures { result ≡ row_named word.now }
{
    for op in &ROWS {
        if word == mnemonic(*op).as_bytes() {
            return Some(*op);
        }
    }
    None
}
