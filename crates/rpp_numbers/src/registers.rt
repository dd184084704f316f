// The registers of compiled statements.
ghost use Rattle.std.specs.Prelude.{◌≡◌};

use bennett_wrap::registers::{
    ADDRESS, AMOUNT, AT_LENGTH, AT_PLACE, BLOCK, CONTENT, FIRST_WORD, FLAG, FRAME, ITEM, LEFT,
    LEFT_TRUTH, LINK, MOVED, NOUGHT, OBJECT, OTHER_PLACE, OUTCOME, PLACE, RIGHT, RIGHT_TRUTH,
    SECOND_WORD, TRUTH, VALUE,
};

/// What each register is for.
pub fn register_numbers()
    ensures kept { (LINK ≡ 2) × (OBJECT ≡ 3) × (FRAME ≡ 4) }
    ensures words { (ADDRESS ≡ 5) × (CONTENT ≡ 6) × (NOUGHT ≡ 7) × (MOVED ≡ 8) }
    ensures tests { (LEFT_TRUTH ≡ 8) × (RIGHT_TRUTH ≡ 9) × (OUTCOME ≡ 10) × (FLAG ≡ 11)
        × (TRUTH ≡ 24) }
    ensures values { (VALUE ≡ 12) × (BLOCK ≡ 13) × (AT_PLACE ≡ 14) × (AT_LENGTH ≡ 15) }
    ensures operands { (LEFT ≡ 16) × (RIGHT ≡ 17) × (ITEM ≡ 18) × (AMOUNT ≡ 19) }
    ensures places { (PLACE ≡ 20) × (OTHER_PLACE ≡ 21) × (FIRST_WORD ≡ 22) × (SECOND_WORD ≡ 23) }
{}
