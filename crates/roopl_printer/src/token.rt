// Tokens, each with the space or the line feed before it.
ghost use Rattle.std.specs.Prelude.{◌≡◌, ◌∷◌, ◌++◌, [], OnOk, decimal};
ghost use Rattle.roopl_printer.specs.Printed.{with_gap, a_name, a_sign, printed_behind, first};
ghost use Rattle.roopl_printer.specs.Spelled.{operator, update_sign};
ghost use Rattle.roopl_parser.specs.roopl_lexer.declared.token.TokenKind.TheVariants.{Name, Number};

use itoa::Buffer;
use roopl_parser::NoMemory;
use roopl_parser::tree::{BinOp, Ident, UpdateOp};

/// Adds bytes at the end.
pub(crate) fn put(out: &mut Vec<u8>, bytes: &[u8]) -> Result<(), NoMemory>
    ensures { OnOk result (out.new.items ≡ out.old.items ++ bytes.now) }
{
    Ok(out.extend_from_slice(bytes)?)
}

/// Adds a name after others on its line.
pub(crate) fn put_name(out: &mut Vec<u8>, name: &Ident) -> Result<(), NoMemory>
    ensures { OnOk result (out.new.items ≡ out.old.items ++ with_gap (a_name name.now)) }
{
    put(out, b" ")?;
    put(out, name.text.bytes())
}

/// Adds a name that begins a line.
pub(crate) fn put_first_name(out: &mut Vec<u8>, name: &Ident) -> Result<(), NoMemory>
    ensures { OnOk result (out.new.items ≡ out.old.items ++ with_gap (first (Name name.now.text))) }
{
    put(out, b"\n")?;
    put(out, name.text.bytes())
}

/// Adds a number.
pub(crate) fn put_number(out: &mut Vec<u8>, number: u32) -> Result<(), NoMemory>
    ensures { OnOk result (out.new.items ≡ out.old.items ++ with_gap (printed_behind (Number number))) }
{
    let mut buffer = Buffer::new();
    put(out, b" ")?;
    put(out, buffer.format(number).as_bytes())
}

/// An operator, with its space.
pub(crate) fn operator(op: BinOp) -> &'static [u8]
    ensures { result.now ≡ with_gap (a_sign (operator op)) }
{
    match op {
        BinOp::Add => b" +",
        BinOp::Sub => b" -",
        BinOp::Xor => b" ^",
        BinOp::And => b" &",
        BinOp::Or => b" |",
        BinOp::AndAlso => b" &&",
        BinOp::OrElse => b" ||",
        BinOp::Less => b" <",
        BinOp::Greater => b" >",
        BinOp::AtMost => b" <=",
        BinOp::AtLeast => b" >=",
        BinOp::Equal => b" =",
        BinOp::NotEqual => b" !=",
        BinOp::Mul => b" *",
        BinOp::Div => b" /",
        BinOp::Rem => b" %",
    }
}

/// The sign of an update, with its space.
pub(crate) fn update_sign(op: UpdateOp) -> &'static [u8]
    ensures { result.now ≡ with_gap (a_sign (update_sign op)) }
{
    match op {
        UpdateOp::Add => b" +=",
        UpdateOp::Sub => b" -=",
        UpdateOp::Xor => b" ^=",
    }
}
