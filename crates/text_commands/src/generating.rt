// `generate SEED SIZE OUT`: writes a generated program.
ghost use Rattle.std.specs.Prelude.{[]};
ghost use Rattle.command_plan.specs.Files.{OnlyReads};
ghost use Rattle.command_plan.specs.Plans.{GivesPlan};
ghost use Rattle.text_commands.specs.TextPlans.{Generates};

use crate::writing::write_text;
use command_plan::{NoPlan, Plan, Shelf};
use std::alloc::Global;

/// Writes the program of a seed and a number of items into a file. No file is read.
pub fn generate<S: Shelf>(
    alloc: Global,
    _shelf: &mut S,
    seed: u64,
    size: u32,
    out: &str,
) -> Result<Plan, NoPlan>
    ensures plan { GivesPlan (S.texts _shelf.old) (Generates seed size out.now) result }
    ensures reads { OnlyReads (S.texts _shelf.old) (S.texts _shelf.new) (S.faults _shelf.old)
        (S.faults _shelf.new) [] result }
{
    let text = rpp_generator::generate(alloc, seed, size)?;
    Ok(write_text(alloc, out, text)?)
}
