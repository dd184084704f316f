// The texts of files, read one after the other.
ghost use Rattle.std.specs.Prelude.{◌≡◌, ◌∷◌, map, IfOk, IfErr};
ghost use Rattle.command_plan.specs.rpp_ports.Memory.{file_text};
ghost use Rattle.command_plan.specs.declared.plan.NoPlan.TheVariants.{NoMemory};
ghost use Rattle.command_plan.specs.Files.{OnlyReads};
ghost use Rattle.command_plan.specs.Reads.{Gave, Asks};
ghost use Rattle.plan_serving.specs.Places.{HasPlaces, IsBefore, held_bytes};
ghost use Rattle.plan_serving.specs.Wanted.{file_of};

use command_plan::{Named, NoPlan, Shelf, read_file};
use std::alloc::Global;

/// A file that is to be read, and how many bytes it may have.
#[derive(Drop)]
pub struct Wanted {
    pub name: String,
    pub limit: u64,
}

/// The texts of files, each read once and in order, with the names of their places: that of the
/// first is `place`, and each further one is a byte longer. So a file that is named twice has two
/// texts, since it is read twice.
pub fn fetch<S: Shelf>(
    alloc: Global,
    shelf: &mut S,
    files: &[Wanted],
    place: &str,
) -> Result<Vec<Named>, NoPlan>
    ensures gave { IfOk result (λ read. Gave (S.texts shelf.old) (map file_of files.now)
        (map held_bytes read.items) (S.events shelf.old) (S.events shelf.new)) }
    ensures places { IfOk result (λ read. HasPlaces (file_text read.items) place.now
        (map held_bytes read.items)) }
    ensures asks { Asks (S.texts shelf.old) (S.faults shelf.old) (S.faults shelf.new)
        (map file_of files.now) (S.events shelf.old) (S.events shelf.new) result }
    ensures reads { OnlyReads (S.texts shelf.old) (S.texts shelf.new) (S.faults shelf.old)
        (S.faults shelf.new) (map file_of files.now) result }
{
    let Some((file, rest)) = files.split_first() else {
        return Ok(Vec::new(alloc));
    };
    let next = format!(in alloc; "a{place}")?;
    let bytes = match read_file(alloc, shelf, file.name.as_str(), file.limit) {
        Ok(bytes) => bytes,
        Err(stop) => return Err(stop),
    };
    match fetch(alloc, shelf, rest, next.as_str()) {
        Ok(others) => with_first(alloc, place, bytes, others),
        Err(stop) => Err(stop),
    }
}

// One more text, before the others.
fn with_first(
    alloc: Global,
    place: &str,
    bytes: Vec<u8>,
    others: Vec<Named>,
) -> Result<Vec<Named>, NoPlan>
    ensures texts { IfOk result (λ read. map held_bytes read.items
        ≡ bytes.items ∷ map held_bytes others.items) }
    ensures held { IfOk result (λ read. IsBefore place.now bytes.items (file_text others.items)
        (file_text read.items)) }
    ensures memory { IfErr result (λ stop. stop ≡ NoMemory) }
{
    let mut read = others;
    let name = String::from_str(alloc, place)?;
    read.insert(0, Named { name, bytes })?;
    Ok(read)
}
