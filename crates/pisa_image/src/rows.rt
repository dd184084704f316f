// The numbers of the rows of the instruction table.
ghost use Rattle.std.specs.Prelude.{◌≡◌, slice_get};
ghost use Rattle.pisa_image.specs.Rows.{row_number, row_in, row_with};

use pisa_isa::{Op, ROWS};

/// The number of a row.
pub(crate) fn number_of(op: Op) -> u8
    ensures { result ≡ row_number op }
{
    match op {
        Op::Add => 1,
        Op::Sub => 2,
        Op::Xor => 3,
        Op::Neg => 4,
        Op::Addi => 5,
        Op::Xori => 6,
        Op::Rl => 7,
        Op::Rr => 8,
        Op::Rlv => 9,
        Op::Rrv => 10,
        Op::Andx => 11,
        Op::Orx => 12,
        Op::Norx => 13,
        Op::Sltx => 14,
        Op::Andix => 15,
        Op::Orix => 16,
        Op::Sllx => 17,
        Op::Srlx => 18,
        Op::Srax => 19,
        Op::Sllvx => 20,
        Op::Srlvx => 21,
        Op::Sravx => 22,
        Op::Exch => 23,
        Op::Swapbr => 24,
        Op::Bra => 25,
        Op::Rbra => 26,
        Op::Beq => 27,
        Op::Bne => 28,
        Op::Bgez => 29,
        Op::Bgtz => 30,
        Op::Blez => 31,
        Op::Bltz => 32,
        Op::Start => 33,
        Op::Finish => 34,
        Op::DataWord => 35,
    }
}

/// The row with a number, if there is one.
pub(crate) fn row_with(number: u8) -> Option<Op>
    ensures { result ≡ row_with number }
{
    row_in(&ROWS, number)
}

/// The row with a number, if the rows are numbered from 1 on.
fn row_in(rows: &[Op], number: u8) -> Option<Op>
    ensures { result ≡ row_in rows.now number }
{
    if number == 0 {
        return None;
    }
    row_at_place(rows, usize::from(number) - 1)
}

fn row_at_place(rows: &[Op], place: usize) -> Option<Op>
    ensures { result ≡ slice_get rows.now place }
{
    rows.get(place).copied()
}
