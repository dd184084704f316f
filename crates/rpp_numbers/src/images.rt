// The numbers of images and of states.
ghost use Rattle.std.specs.Prelude.{◌≡◌, ◌∷◌, []};
ghost use Rattle.command_line.specs.pisa_image.declared.reading.TheConstants.{MARK};
ghost use Rattle.command_line.specs.pisa_loader.declared.state.TheConstants.{STATE_MARK, STATE_VERSION};

use bennett_wrap::{
    LAST_PLACE, MOST_CELLS, MOST_COPIED, MOST_MARKS, MOST_NAME_BYTES, MOST_NAMES, MOST_STATICS, Op,
    ROWS,
};
use command_line::{OLD_VERSION, VERSION};

/// The numbers of images and of states, and the instructions in their order, from number 1 on.
pub fn image_numbers()
    ensures cells { (MOST_CELLS ≡ 8_050_000) × (MOST_STATICS ≡ 262_144) }
    ensures notes { (MOST_MARKS ≡ 20_000) × (LAST_PLACE ≡ 1_048_575) × (MOST_NAMES ≡ 64)
        × (MOST_NAME_BYTES ≡ 1_048_576) }
    // `RPPI` and `RPPS`, the lowest byte first.
    ensures files { (MARK ≡ 0x4950_5052) × (VERSION ≡ 2) × (OLD_VERSION ≡ 1)
        × (STATE_MARK ≡ 0x5350_5052) × (STATE_VERSION ≡ 1) }
    ensures copied { MOST_COPIED ≡ 64 }
    ensures rows { ROWS ≡ Op.Add ∷ Op.Sub ∷ Op.Xor ∷ Op.Neg ∷ Op.Addi ∷ Op.Xori ∷ Op.Rl ∷ Op.Rr
        ∷ Op.Rlv ∷ Op.Rrv ∷ Op.Andx ∷ Op.Orx ∷ Op.Norx ∷ Op.Sltx ∷ Op.Andix ∷ Op.Orix ∷ Op.Sllx
        ∷ Op.Srlx ∷ Op.Srax ∷ Op.Sllvx ∷ Op.Srlvx ∷ Op.Sravx ∷ Op.Exch ∷ Op.Swapbr ∷ Op.Bra
        ∷ Op.Rbra ∷ Op.Beq ∷ Op.Bne ∷ Op.Bgez ∷ Op.Bgtz ∷ Op.Blez ∷ Op.Bltz ∷ Op.Start ∷ Op.Finish
        ∷ Op.DataWord ∷ [] }
{}
