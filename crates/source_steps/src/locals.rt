// The places of whole variables and of elements.
ghost use Rattle.std.specs.Prelude.{◌≡◌, MatchResult, None};
ghost use Rattle.source_store.specs.roopl_semantics.Execution.{element_name};

use crate::stop::Stop;
use class_table::Text;
use class_table::tree::{Ident, Place};
use source_store::Lack;
use std::alloc::Global;

/// The place of a variable of this name.
pub fn whole_place(alloc: Global, name: &Ident) -> Result<Place, Stop>
    ensures { MatchResult result (λ place. (place.name ≡ name.now) × (place.index ≡ None))
        (λ why. why ≡ Stop.Lacks Lack.NoMemory) }
{
    match name.text.copy(alloc) {
        Err(_full) => Err(Stop::Lacks(Lack::NoMemory)),
        Ok(text) => Ok(Place {
            name: Ident { at: name.at, text },
            index: None,
        }),
    }
}

/// The place of the variable that holds an element during a call on it.
pub fn element_place(alloc: Global, at: u32) -> Result<Place, Stop>
    ensures { MatchResult result (λ place. (place.name ≡ element_name at) × (place.index ≡ None))
        (λ why. why ≡ Stop.Lacks Lack.NoMemory) }
{
    match Text::of(alloc, &[]) {
        Err(_full) => Err(Stop::Lacks(Lack::NoMemory)),
        Ok(text) => Ok(Place {
            name: Ident { at, text },
            index: None,
        }),
    }
}
