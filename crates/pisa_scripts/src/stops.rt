// Printed words, and the lines on stops.
ghost use Rattle.std.specs.Prelude.{◌≡◌, ◌++◌, OnOk, OnErr, string_bytes};
ghost use Rattle.pisa_scripts.specs.Stops.{stop_line};

use code_conventions::Stop;
use code_conventions::faults::fault_name;
use std::alloc::AllocError;

/// Adds the line on why a machine stopped. If memory runs out, the text is as before.
pub fn add_stop(text: &mut String, stop: Stop) -> Result<(), AllocError>
    ensures added { OnOk result (string_bytes text.new ≡ string_bytes text.old ++ stop_line stop) }
    ensures kept { OnErr result (string_bytes text.new ≡ string_bytes text.old) }
{
    match stop {
        Stop::Finished => text.push_str("finished\n"),
        Stop::Returned => text.push_str("returned\n"),
        Stop::Trap(code) => add_fault(text, code),
        Stop::BadAddress(address) => {
            let line = format!(in *text.allocator(); "bad address {address}\n")?;
            text.push_str(line.as_str())
        }
        Stop::OffCode(place) => {
            let line = format!(in *text.allocator(); "off code {place}\n")?;
            text.push_str(line.as_str())
        }
        Stop::Bound => text.push_str("bound\n"),
    }
}

// The line on a fault, with its name.
fn add_fault(text: &mut String, code: u32) -> Result<(), AllocError>
    ensures added { OnOk result (string_bytes text.new
        ≡ string_bytes text.old ++ stop_line (Stop.Trap code)) }
    ensures kept { OnErr result (string_bytes text.new ≡ string_bytes text.old) }
{
    let name = fault_name(code);
    let number = code.cast_signed();
    let line = format!(in *text.allocator(); "fault {number}{name}\n")?;
    text.push_str(line.as_str())
}
