// The lines that a report of a store and a report of a memory have in common.
ghost use Rattle.std.specs.Prelude.{◌≡◌, ◌++◌, string_bytes, OnOk};
ghost use Rattle.std.specs.Str.{IsAscii};
ghost use Rattle.meaning_reached.specs.rpp_tree.Views.{source_of};
ghost use Rattle.refine_frame.specs.class_rules.Members.{class_at};
ghost use Rattle.static_layout.specs.roopl_semantics.Report.{signed_decimal, live_line};

use static_layout::Text;
use static_layout::tree::Program;
use std::alloc::AllocError;

/// The line on how many objects are live besides the main object.
pub fn add_live(out: &mut String, live: u64) -> Result<(), AllocError>
    ensures { OnOk result (string_bytes out.new ≡ string_bytes out.old ++ live_line live) }
{
    write!(out, "live {live}\n")
}

/// A word in signed decimal.
pub fn add_word(out: &mut String, word: u32) -> Result<(), AllocError>
    ensures { OnOk result (string_bytes out.new ≡ string_bytes out.old ++ signed_decimal word) }
{
    if word < 1 << 31 {
        write!(out, "{word}")
    } else {
        let below = 0u32.wrapping_sub(word);
        write!(out, "-{below}")
    }
}

/// Adds ASCII bytes to a text, as characters.
pub fn add_bytes(out: &mut String, bytes: &[u8]) -> Result<(), AllocError>
    requires { IsAscii bytes.now }
    ensures { OnOk result (string_bytes out.new ≡ string_bytes out.old ++ bytes.now) }
{
    for byte in bytes {
        out.push(char::from(*byte))?;
    }
    Ok(())
}

/// Adds a name to a text.
pub fn add_name(out: &mut String, name: &Text) -> Result<(), AllocError>
    requires { IsAscii name.now }
    ensures { OnOk result (string_bytes out.new ≡ string_bytes out.old ++ name.now) }
{
    add_bytes(out, name.bytes())
}

/// The bytes of the name of a class, none for a number of no class.
pub fn class_name(program: &Program, class: u32) -> &[u8]
    ensures { result.now ≡ (class_at (source_of program.now) class).name.text }
{
    match program.classes.get(class as usize) {
        None => &[],
        Some(class) => class.name.text.bytes(),
    }
}
