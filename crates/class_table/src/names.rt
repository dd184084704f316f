// Sets of names.
ghost use Rattle.std.specs.Prelude.{◌≡◌, MatchResult, not, IsTrue, ◌++◌, ◌∷◌, []};
ghost use Rattle.class_rules.specs.Names.{has_name, with_name};

use class_rules::{ClassError, Text};
use indexmap::IndexSet;
use std::alloc::Global;

/// Puts a copy of a name last, unless the name is there. Says whether it was not there.
pub fn add_name(alloc: Global, names: &mut IndexSet<Text>, name: &Text) -> Result<bool, ClassError>
    ensures { MatchResult result (λ added. (added ≡ not (has_name names.old.keys name.now))
        × (IsTrue added → names.new.keys ≡ names.old.keys ++ name.now ∷ [])
        × (names.new.keys ≡ with_name names.old.keys name.now))
        (λ error. error ≡ ClassError.NoMemory) }
{
    let name = match name.copy(alloc) {
        Err(_) => return Err(ClassError::NoMemory),
        Ok(name) => name,
    };
    match names.insert_full(name) {
        Err(_) => return Err(ClassError::NoMemory),
        Ok((_, added)) => return Ok(added),
    }
}
