// The operands of an instruction.
ghost use Rattle.std.specs.Prelude.{◌≡◌, ◌≢◌, MatchOption, MatchResult, Ok, Err, Some, None};
ghost use Rattle.std.specs.Option.{option_map};
ghost use Rattle.pisa_isa.specs.Table.{has_a, has_b, c_is_source};
ghost use Rattle.pisa_asm.specs.declared.operand.Last.TheVariants.{Offset};
ghost use Rattle.pisa_asm.specs.declared.operand.Operand.TheVariants.{Number};
ghost use Rattle.pisa_asm.specs.Chain.{or_bad, Refuses};
ghost use Rattle.pisa_asm.specs.Lines.{line_words};
ghost use Rattle.pisa_asm.specs.Operands.{last_of, register_from, registers_from, sole, no_operand, operand_from, with_operand, given_from};

use crate::error::AsmError;
use crate::label::is_name;
use crate::line::next_word;
use crate::number::{amount_number, offset_number, register_number, word_number};
use pisa_isa::{Cell, Op, Text};
use std::alloc::Global;

/// What an instruction has after its registers.
#[derive(Clone, Copy, PartialEq, Eq, Debug)]
pub enum Last {
    /// Nothing.
    Nothing,
    /// A word.
    Word,
    /// An amount from 0 to 31.
    Amount,
    /// An offset.
    Offset,
}

/// The last operand of an instruction.
#[derive(Drop)]
pub enum Operand {
    /// A number, wrapped to a word; 0 if the instruction has none.
    Number(u32),
    /// The name of a label.
    Label(Text),
}

/// An instruction as it is given.
#[derive(Drop)]
pub struct Given {
    /// The cell; its offset is 0 if a label gives it.
    pub cell: Cell,
    /// The label that gives the offset.
    pub target: Option<Text>,
}

/// What an instruction has after its registers.
pub fn last_of(op: Op) -> Last
    ensures { result ≡ last_of op }
{
    match op {
        Op::Addi | Op::Xori | Op::Andix | Op::Orix | Op::DataWord => Last::Word,
        Op::Rl | Op::Rr | Op::Sllx | Op::Srlx | Op::Srax => Last::Amount,
        Op::Bra | Op::Rbra | Op::Beq | Op::Bne | Op::Bgez | Op::Bgtz | Op::Blez | Op::Bltz =>
            Last::Offset,
        _ => Last::Nothing,
    }
}

/// Which of `a`, `b` and `c` name a register.
pub fn has_registers(op: Op) -> (bool, bool, bool)
    ensures { result ≡ (has_a op, has_b op, c_is_source op) }
{
    match op {
        Op::Bra | Op::Rbra | Op::Start | Op::Finish | Op::DataWord => (false, false, false),
        Op::Neg
        | Op::Addi
        | Op::Xori
        | Op::Rl
        | Op::Rr
        | Op::Swapbr
        | Op::Bgez
        | Op::Bgtz
        | Op::Blez
        | Op::Bltz => (true, false, false),
        Op::Andx | Op::Orx | Op::Norx | Op::Sltx | Op::Sllvx | Op::Srlvx | Op::Sravx => {
            (true, true, true)
        }
        _ => (true, true, false),
    }
}

/// The register that the first word names, if the instruction has one here, and what follows it.
fn register_from(has: bool, words: &[u8]) -> Option<(u8, &[u8])>
    ensures { MatchOption result (register_from has (line_words words.now) ≡ None)
        (λ p. register_from has (line_words words.now) ≡ Some (p.0, line_words p.1.now)) }
{
    if !has {
        return Some((0, words));
    }
    match next_word(words) {
        None => None,
        Some((word, rest)) => match register_number(word) {
            None => None,
            Some(register) => Some((register, rest)),
        },
    }
}

/// The registers of an instruction, and what follows them.
fn registers_from(op: Op, words: &[u8]) -> Option<(Cell, &[u8])>
    ensures { MatchOption result (registers_from op (line_words words.now) ≡ None)
        (λ p. registers_from op (line_words words.now) ≡ Some (p.0, line_words p.1.now)) }
{
    let (has_a, has_b, has_c) = has_registers(op);
    let (a, words) = register_from(has_a, words)?;
    let (b, words) = register_from(has_b, words)?;
    let (c, words) = register_from(has_c, words)?;
    Some((
        Cell {
            op,
            a,
            b,
            c,
            imm: 0,
        },
        words,
    ))
}

/// The only word.
pub fn sole_word(words: &[u8]) -> Option<&[u8]>
    ensures { MatchOption result (sole (line_words words.now) ≡ None)
        (λ word. sole (line_words words.now) ≡ Some word.now) }
{
    match next_word(words) {
        None => None,
        Some((word, rest)) => match next_word(rest) {
            None => Some(word),
            Some(_more) => None,
        },
    }
}

/// The operand of an instruction that has none.
fn no_operand(words: &[u8]) -> Option<u32>
    ensures { option_map Number result ≡ no_operand (line_words words.now) }
{
    match next_word(words) {
        None => Some(0),
        Some(_more) => None,
    }
}

/// The last operand of an instruction, if it is no offset.
fn number_from(last: Last, words: &[u8]) -> Option<u32>
    requires { last ≢ Offset }
    ensures { option_map Number result ≡ operand_from last (line_words words.now) }
{
    match last {
        Last::Nothing => no_operand(words),
        Last::Word => match sole_word(words) {
            None => None,
            Some(word) => word_number(word),
        },
        _ => match sole_word(words) {
            None => None,
            Some(word) => amount_number(word),
        },
    }
}

/// An operand that is a number, or the refusal of its line.
fn number_or_bad(number: Option<u32>, line: u32) -> Result<Operand, AsmError>
    ensures { result ≡ or_bad line (option_map Number number) }
{
    match number {
        None => Err(AsmError::BadLine { line }),
        Some(number) => Ok(Operand::Number(number)),
    }
}

/// An offset: a number or a label's name.
fn offset_from(alloc: Global, words: &[u8], line: u32) -> Result<Operand, AsmError>
    ensures { MatchResult result
        (λ operand. or_bad line (operand_from Offset (line_words words.now)) ≡ Ok operand)
        (Refuses (or_bad line (operand_from Offset (line_words words.now)))) }
{
    match sole_word(words) {
        None => Err(AsmError::BadLine { line }),
        Some(word) => {
            if is_name(word) {
                Ok(Operand::Label(Text::of(alloc, word)?))
            } else {
                number_or_bad(offset_number(word), line)
            }
        }
    }
}

/// The last operand of an instruction.
fn operand_from(alloc: Global, last: Last, words: &[u8], line: u32) -> Result<Operand, AsmError>
    ensures { MatchResult result
        (λ operand. or_bad line (operand_from last (line_words words.now)) ≡ Ok operand)
        (Refuses (or_bad line (operand_from last (line_words words.now)))) }
{
    match last {
        Last::Offset => offset_from(alloc, words, line),
        _ => number_or_bad(number_from(last, words), line),
    }
}

/// A cell with its last operand.
fn with_operand(cell: Cell, operand: Operand) -> Given
    ensures { result ≡ with_operand cell operand }
{
    match operand {
        Operand::Number(imm) => Given {
            cell: Cell { imm, ..cell },
            target: None,
        },
        Operand::Label(name) => Given {
            cell,
            target: Some(name),
        },
    }
}

/// The instruction of a mnemonic's row with these operands.
pub fn given_from(alloc: Global, op: Op, words: &[u8], line: u32) -> Result<Given, AsmError>
    ensures { MatchResult result
        (λ given. or_bad line (given_from op (line_words words.now)) ≡ Ok given)
        (Refuses (or_bad line (given_from op (line_words words.now)))) }
{
    match registers_from(op, words) {
        None => Err(AsmError::BadLine { line }),
        Some((cell, rest)) => match operand_from(alloc, last_of(op), rest, line) {
            Err(refusal) => Err(refusal),
            Ok(operand) => Ok(with_operand(cell, operand)),
        },
    }
}
