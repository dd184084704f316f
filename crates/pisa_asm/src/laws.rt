// What holds for all images with their notes.
ghost use Rattle.std.specs.Prelude.{◌≡◌, List, ℕ, Ok, true, All};
ghost use Rattle.pisa_isa.specs.rpp_words.Words.{IsWord};
ghost use Rattle.pisa_isa.specs.Image.{IsImage};
ghost use Rattle.pisa_isa.specs.Notes.{NotedImage, fits};
ghost use Rattle.pisa_asm.specs.Passes.{noted_of_lines, noted_of_text};
ghost use Rattle.pisa_asm.specs.Listing.{listing};
ghost use Rattle.pisa_asm.specs.AssemblyText.{AssemblyText};

/// The listing of an image with notes that fit it reads as that image with these notes.
pub fn listing_reads_back()
    ensures { (n : NotedImage) → IsImage n.image → All IsWord n.image.statics
        → fits n.image n.notes ≡ true
        → noted_of_text (listing n) ≡ Ok n }
{}

/// The image that is read from a text, with its notes, is the one that its lines write. If no image
/// is read, they write none.
pub fn what_is_read_is_written()
    ensures sound { (lines : List (List ℕ)) (n : NotedImage) → noted_of_lines lines ≡ Ok n
        → AssemblyText lines n }
    ensures complete { (lines : List (List ℕ)) (n : NotedImage) → AssemblyText lines n
        → noted_of_lines lines ≡ Ok n }
{}
