// Plans that write a text.
ghost use Rattle.std.specs.Prelude.{◌≡◌, IfOk, string_bytes};
ghost use Rattle.command_plan.specs.Plans.{planned};
ghost use Rattle.text_commands.specs.TextPlans.{writes_text};

use command_plan::{NoMemory, Plan};
use std::alloc::Global;

/// The plan that writes a text into a file, and prints how many bytes it has.
pub(crate) fn write_text(alloc: Global, name: &str, text: String) -> Result<Plan, NoMemory>
    ensures { IfOk result (λ plan. planned plan ≡ writes_text name.now (string_bytes text)) }
{
    let count = text.len();
    let line = format!(in alloc; "written {count} bytes\n")?;
    Ok(Plan::writes(String::from_str(alloc, name)?, text.into_bytes(), line))
}
