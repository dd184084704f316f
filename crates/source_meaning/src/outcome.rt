// How a run ends.
use crate::store::Store;

/// How a run ends.
#[derive(Drop)]
pub enum Outcome {
    /// It is over with these objects, at this cost.
    Done { store: Store, cost: u64 },
    /// It stops with the fault of this number, at this cost.
    Fault { code: u32, cost: u64 },
    /// Its cost passes the fuel.
    More,
}
