// The images of programs.
ghost use Rattle.std.specs.Prelude.{◌≤◌, length, IfOk};
ghost use Rattle.run_settings.specs.rpp_tree.Views.{source_of};
ghost use Rattle.run_settings.specs.pisa_isa.Image.{IsImage};
ghost use Rattle.run_settings.specs.roopl_semantics.StandsFor.{StandsFor};

use program_codegen::compile;
use run_settings::limits::MOST_TOKENS;
use run_settings::{Checked, Image, NoMemory};
use std::alloc::Global;

/// The most code cells of a compiled image: 200 for each token that a program may have, and 8,192.
pub const MOST_COMPILED: usize = 200 * MOST_TOKENS as usize + 8_192;

/// The image of a program, without what is noted of it.
#[tactic(auto, using(crate::proofs::Sizes::few_cells))]
pub fn compiled_image(alloc: Global, checked: &Checked) -> Result<Image, NoMemory>
    ensures stands { IfOk result (λ image. StandsFor (source_of checked.now) image) }
    ensures image { IfOk result (λ image. IsImage image) }
    ensures size { IfOk result (λ image. length image.code ≤ MOST_COMPILED) }
{
    let _table = checked.table(); // proof: says what the table is
    Ok(compile(alloc, checked)?.into_parts().0)
}
