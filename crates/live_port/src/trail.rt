// The calls of a port for lines, which only proofs keep. A trail takes no memory, and its methods do
// nothing at run time.
ghost use Rattle.std.specs.Prelude.{◌≡◌, List, [], ◌∷◌};
ghost use Rattle.std.specs.Borrow.{ftrue};
ghost use Rattle.live_port.specs.Heard.{Heard};

use crate::Asked;
use std::marker::{Model, PhantomData};

// A call, with what was heard.
#[derive(Drop)]
pub(crate) struct Note<'a> {
    pub(crate) asked: &'a Asked,
}

// The calls, the last one first.
#[derive(Drop)]
pub(crate) struct Trail {
    marker: PhantomData<u8>,
    pub(crate) ghost events: { List Heard },
}

impl Model for Trail {
    ghost also_owns = { λ _. ftrue };
}

impl Trail {
    ghost use Rattle.live_port.specs.Notes.{heard_of};

    pub(crate) fn new() -> Trail
        ensures { result.events ≡ [] }
    {
        Trail {
            marker: PhantomData,
        }
    }

    pub(crate) fn note(&mut self, _note: &Note<'_>)
        ensures { self.new.events ≡ heard_of _note.now ∷ self.old.events }
    {}
}
