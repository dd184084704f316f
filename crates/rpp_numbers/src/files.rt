// The sizes of files, and the numbers of runs and probes.
ghost use Rattle.std.specs.Prelude.{◌≡◌};
ghost use Rattle.command_line.specs.rpp_probes.declared.coverage.TheConstants.{MOST_PLACES};
ghost use Rattle.source_debugger.specs.source_courses.declared.running.TheConstants.{MOST_COST};

use command_line::{
    MOST_COMMON, MOST_IMAGE, MOST_INPUT, MOST_ITEMS, MOST_PROCESSORS, MOST_STATE, MOST_TEXT,
};
use debugger_scripts::{MOST_DIGITS, MOST_SCRIPT, MOST_SHOWN};
use two_way_debugger::LAST_POSITION;

/// The most bytes of files, and the numbers of runs and probes.
pub fn file_numbers()
    ensures files { (MOST_TEXT ≡ 268_435_456) × (MOST_IMAGE ≡ 67_108_864)
        × (MOST_STATE ≡ 33_554_432) }
    ensures given { (MOST_INPUT ≡ 65_536) × (MOST_SCRIPT ≡ 65_536) }
    // The digits of a number in a script, and the cells that a command of it prints.
    ensures scripts { (MOST_DIGITS ≡ 18) × (MOST_SHOWN ≡ 1_000) }
    // What a line of arguments may ask of the generator and of a cluster.
    ensures asked { (MOST_ITEMS ≡ 800) × (MOST_PROCESSORS ≡ 8) × (MOST_COMMON ≡ 65_536) }
    // The last position in a run, 2 ^ 63 - 1, and the most cost of one that `trace` follows, 2 ^ 64 - 1.
    ensures runs { (LAST_POSITION ≡ 0x7fff_ffff_ffff_ffff) × (MOST_COST ≡ 0xffff_ffff_ffff_ffff) }
    ensures probes { MOST_PLACES ≡ 4_194_304 }
{}
