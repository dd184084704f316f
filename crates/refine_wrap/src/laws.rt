// What the wrapped image of a program does, each law the contract of a function.
ghost use Rattle.refine_wrap.specs.Laws.{IntFieldsStandInStaticCells, WrappedProgramsFollow};

/// The wrapped run of an image that implements a program ends as the source does, and adds only the
/// results. It is over after 2000 steps for each cost unit of the source, and 5000 more.
pub fn wrapped_programs_follow()
    ensures { WrappedProgramsFollow }
{}

/// At the end of a run of an accepted program each int field of the main object holds the word that
/// the layout has in the field's static cell.
pub fn int_fields_stand_in_static_cells()
    ensures { IntFieldsStandInStaticCells }
{}
