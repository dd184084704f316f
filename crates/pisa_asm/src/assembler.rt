// From text to image.
ghost use Rattle.std.specs.Prelude.{◌≡◌, ◌≤◌, length, vec_len, All, MatchResult, IfOk, IfErr, Ok, Err};
ghost use Rattle.pisa_isa.specs.Table.{IsCell};
ghost use Rattle.pisa_asm.specs.Chain.{Refuses};
ghost use Rattle.pisa_asm.specs.AssemblyText.{AssemblyText};
ghost use Rattle.pisa_asm.specs.Lines.{lines_of};
ghost use Rattle.pisa_asm.specs.Passes.{sealed_image, noted_of_text};

use crate::error::AsmError;
use crate::link::link;
use crate::notes::notes_of;
use crate::survey::survey_of;
use pisa_isa::{Cell, Image, MOST_CELLS, MOST_STATICS, Noted, SealError};
use std::alloc::Global;

/// The most bytes of an assembly text.
pub const MOST_TEXT: usize = 268_435_456;

/// An image of cells, each of which an image may hold. Otherwise which of START and FINISH is
/// wrong.
fn seal(code: Vec<Cell>, statics: Vec<u32>) -> Result<Image, AsmError>
    requires code_in_limit { vec_len code ≤ MOST_CELLS }
    requires statics_in_limit { vec_len statics ≤ MOST_STATICS }
    requires cells { All IsCell code.items }
    ensures { MatchResult result
        (λ image. sealed_image code.items statics.items ≡ Ok image)
        (λ refusal. sealed_image code.items statics.items ≡ Err refusal) }
{
    match Image::seal(code, statics) {
        Ok(image) => Ok(image),
        Err(SealError::NoStart) => Err(AsmError::NoStart),
        Err(SealError::NoFinish) => Err(AsmError::NoFinish),
        Err(SealError::NotOneToOne { .. }) => unreachable!(),
        Err(SealError::NoMemory) => unreachable!(),
    }
}

/// The image and the notes that a text writes, or the text's first refusal.
pub fn assemble(alloc: Global, text: &[u8]) -> Result<Noted, AsmError>
    requires { length text.now ≤ MOST_TEXT }
    ensures noted { IfOk result (λ n. noted_of_text text.now ≡ Ok n) }
    ensures written { IfOk result (λ n. AssemblyText (lines_of text.now) n) }

    // Unless memory runs out, a refusal is the first one of the text.
    ensures refusal { IfErr result (Refuses (noted_of_text text.now)) }
{
    let survey = survey_of(alloc, text)?;
    let code = link(alloc, &survey, text)?;
    let image = seal(code, survey.into_statics())?;
    let notes = notes_of(alloc, &image, text)?;
    Ok(Noted::seal(image, notes))
}
