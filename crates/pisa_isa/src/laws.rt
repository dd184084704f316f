// Laws of the machine, as contracts of functions that do nothing.
ghost use Rattle.std.specs.Prelude.{◌≡◌, ◌≤◌, ℕ, List, Some, None, IsTrue};
ghost use Rattle.pisa_isa.specs.declared.cell.Cell.{Cell};
ghost use Rattle.pisa_isa.specs.Machine.{State, IsCode, IsState, stop, next, back};
ghost use Rattle.pisa_isa.specs.Image.{Segments, IsImage};
ghost use Rattle.pisa_isa.specs.Runs.{steps, back_by, run, started};
ghost use Rattle.pisa_isa.specs.Ends.{IsCleanFinish};
ghost use Rattle.pisa_isa.specs.Flipped.{flipped_image, Restores};
ghost use Rattle.pisa_isa.specs.Notes.{NotedImage, fits, flipped_noted};

/// Stepping back undoes a step, at every state at which there is no stop, for every image.
pub fn back_undoes_next()
    ensures { (code : List Cell) (m : State) → IsCode code → IsState m → stop code m ≡ None
        → back code (next code m) ≡ m }
{}

/// Stepping back n times undoes n steps none of which is a stop, for every image.
pub fn back_undoes_steps()
    ensures { (code : List Cell) (n : ℕ) (m e : State) → IsCode code → IsState m → steps code n m ≡ Some e
        → back_by code n e ≡ m }
{}

/// An inverse image is an image, and the inverse image of it is the original one.
pub fn flipped_image_is_image()
    ensures image { (image : Segments) → IsImage image → IsImage (flipped_image image) }
    ensures twice { (image : Segments) → IsImage image → flipped_image (flipped_image image) ≡ image }
{}

/// The notes of an inverse image fit it, and inverting both again gives the image with its notes.
pub fn flipped_notes_fit()
    ensures fits { (n : NotedImage) → IsTrue (fits n.image n.notes)
        → IsTrue (fits (flipped_noted n).image (flipped_noted n).notes) }
    ensures twice { (n : NotedImage) → IsImage n.image → IsTrue (fits n.image n.notes)
        → flipped_noted (flipped_noted n) ≡ n }
{}

/// If a run of an image from START finishes cleanly, so does the run of the inverse code from
/// START, with the registers and cells of that end. It takes as many steps, and ends with the
/// registers and cells with which the first run began. This holds for each bound that these steps
/// are within.
pub fn flipped_run_restores()
    ensures { (image : Segments) (n : ℕ) (regs cells : List ℕ) (bound : ℕ) → IsImage image
        → IsState (started image.code regs cells)
        → IsCleanFinish image.code n (started image.code regs cells)
        → (run image.code n (started image.code regs cells)).spent ≤ bound
        → Restores image.code (run image.code n (started image.code regs cells)) bound regs cells }
{}
