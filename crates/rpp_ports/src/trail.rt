// The calls of a port, which only proofs keep. A trail takes no memory, and its methods do nothing
// at run time.
ghost use Rattle.std.specs.Prelude.{◌≡◌, List, [], ◌∷◌};
ghost use Rattle.std.specs.Borrow.{ftrue};
ghost use Rattle.rpp_ports.specs.Events.{Event, Put};

use crate::{ShelfFault, SinkFault};
use std::marker::{Model, PhantomData};

// A call of a file store, with its answer.
#[derive(Drop)]
pub(crate) enum Note<'a> {
    Read(&'a str, u64, &'a Result<Vec<u8>, ShelfFault>),
    Write(&'a str, &'a [u8], Result<(), ShelfFault>),
}

// A call of a sink, with its answer.
#[derive(Drop)]
pub(crate) struct PutNote<'a> {
    pub(crate) bytes: &'a [u8],
    pub(crate) answer: Result<(), SinkFault>,
}

// The calls of a file store, the last one first.
#[derive(Drop)]
pub(crate) struct Trail {
    marker: PhantomData<u8>,
    pub(crate) ghost events: { List Event },
}

impl Model for Trail {
    ghost also_owns = { λ _. ftrue };
}

impl Trail {
    ghost use Rattle.rpp_ports.specs.Notes.{event_of};

    pub(crate) fn new() -> Trail
        ensures { result.events ≡ [] }
    {
        Trail {
            marker: PhantomData,
        }
    }

    pub(crate) fn note(&mut self, _note: &Note<'_>)
        ensures { self.new.events ≡ event_of _note.now ∷ self.old.events }
    {}
}

// The calls of a sink, the last one first.
#[derive(Drop)]
pub(crate) struct PutTrail {
    marker: PhantomData<u8>,
    pub(crate) ghost events: { List Put },
}

impl Model for PutTrail {
    ghost also_owns = { λ _. ftrue };
}

impl PutTrail {
    ghost use Rattle.rpp_ports.specs.Notes.{put_of};

    pub(crate) fn new() -> PutTrail
        ensures { result.events ≡ [] }
    {
        PutTrail {
            marker: PhantomData,
        }
    }

    pub(crate) fn note(&mut self, _note: &PutNote<'_>)
        ensures { self.new.events ≡ put_of _note.now ∷ self.old.events }
    {}
}
