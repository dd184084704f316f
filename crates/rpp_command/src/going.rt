// The plans of `go` and `turn`, whose files have the names of their places.
ghost use Rattle.std.specs.Prelude.{◌<◌, ◌^◌, ◌∷◌, [], option_map, string_bytes, IfErr};
ghost use Rattle.command_line.specs.command_plan.Files.{OnlyReads, source_file, input_files};
ghost use Rattle.command_line.specs.command_plan.Plans.{GivesPlan};
ghost use Rattle.plan_serving.specs.Places.{at_place};
ghost use Rattle.program_commands.specs.RunPlans.{RunGoesOn, TurnsFile};
ghost use Rattle.program_commands.specs.ToldShort.{TurnsFileShort};

use command_line::{NoPlan, Plan, Sizes};
use image_commands::Steps;
use plan_serving::{Shelf, place_input};
use program_commands::{Probes, go, turn};
use std::alloc::Global;
use std::sync::ledger::Ledger;

/// The plan of `go`.
pub fn go_line<S: Shelf, L: Ledger>(
    alloc: Global,
    shelf: &mut S,
    input: &Option<String>,
    sizes: Sizes,
    counter: &mut Steps<L>,
) -> Result<Plan, NoPlan>
    requires { sizes.bound < 2 ^ 63 }
    ensures plan { GivesPlan (S.texts shelf.old) (RunGoesOn counter.old counter.new []
        (at_place (97 ∷ []) (option_map string_bytes input.now)) sizes) result }
    ensures reads { OnlyReads (S.texts shelf.old) (S.texts shelf.new) (S.faults shelf.old)
        (S.faults shelf.new)
        (source_file [] ∷ input_files (at_place (97 ∷ []) (option_map string_bytes input.now)))
        result }
{
    let input = place_input(alloc, input, "a")?;
    go(alloc, shelf, "", &input, sizes, counter)
}

/// The plan of `turn`.
pub fn turn_line<S: Shelf, P: Probes, L: Ledger>(
    alloc: Global,
    shelf: &mut S,
    input: &Option<String>,
    sizes: Sizes,
    probes: &mut P,
    counter: &mut Steps<L>,
) -> Result<Plan, NoPlan>
    requires { sizes.bound < 2 ^ 63 }
    ensures plan { GivesPlan (S.texts shelf.old) (TurnsFile (P.watches probes.old)
        (P.watches probes.new) counter.old counter.new []
        (at_place (97 ∷ []) (option_map string_bytes input.now)) sizes) result }
    ensures reads { OnlyReads (S.texts shelf.old) (S.texts shelf.new) (S.faults shelf.old)
        (S.faults shelf.new)
        (source_file [] ∷ input_files (at_place (97 ∷ []) (option_map string_bytes input.now)))
        result }
    ensures short { IfErr result (λ _. TurnsFileShort (P.watches probes.old)
        (P.watches probes.new) [] (at_place (97 ∷ []) (option_map string_bytes input.now)) sizes
        (S.texts shelf.old)) }
{
    let input = place_input(alloc, input, "a")?;
    turn(alloc, shelf, "", &input, sizes, probes, counter)
}
