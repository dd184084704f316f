// The numbers of the faults.
ghost use Rattle.std.specs.Prelude.{◌≡◌};

use bennett_wrap::faults::{
    CLASS_DIFFERS, COUNT, DELOCAL, FI, HEAP_FULL, INDEX, LENGTH, LENGTH_DIFFERS, LOOP, NIL,
    NOT_EMPTY, NOT_NIL, NOT_SAME, SHARED_ARRAY, TOO_DEEP, TOUCHED,
};

/// The number of each fault.
pub fn fault_numbers()
    ensures statements { (FI ≡ 1) × (LOOP ≡ 2) × (DELOCAL ≡ 3) }
    ensures references { (NOT_NIL ≡ 4) × (NIL ≡ 5) × (NOT_SAME ≡ 10) }
    ensures deletions { (COUNT ≡ 6) × (NOT_EMPTY ≡ 7) × (CLASS_DIFFERS ≡ 11)
        × (LENGTH_DIFFERS ≡ 12) }
    ensures heap { HEAP_FULL ≡ 8 }
    ensures arrays { (INDEX ≡ 9) × (LENGTH ≡ 13) × (SHARED_ARRAY ≡ 16) }
    ensures calls { (TOO_DEEP ≡ 14) × (TOUCHED ≡ 15) }
{}
