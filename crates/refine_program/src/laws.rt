// The routines of a program's methods, each law the contract of a function.
ghost use Rattle.refine_program.specs.Laws.{MethodsHaveRoutines, CallsFindRoutines, CodesAreMadeInOrder, StaticsAreFew, LinkedProgramsStand, ProgramImagesHaveRoutines};

/// Each method of a program has its routine: its number leads to the method in the order of the
/// source.
pub fn methods_have_routines()
    ensures { MethodsHaveRoutines }
{}

/// A checked call of an accepted program finds the routine of the method that its name means in the
/// object's class.
pub fn calls_find_routines()
    ensures { CallsFindRoutines }
{}

/// The code of all methods is made one by one in the order of the text.
pub fn codes_are_made_in_order()
    ensures { CodesAreMadeInOrder }
{}

/// The main object and the class tables of an accepted program are at most 65,858 cells, for any
/// addresses of its routines.
pub fn statics_are_few()
    ensures { StaticsAreFew }
{}

/// This is about an image that is linked of the code of `main`, of other routines and of one
/// routine for each method, to which its class tables lead. It implements its accepted program. On
/// every input it does what the source does, with its faults, within 1,000 steps for each cost unit
/// and 1,000 more.
pub fn linked_programs_stand()
    ensures { LinkedProgramsStand }
{}

/// Such an image has the allocator and a routine for each method, to which its class tables lead.
/// With any limits and fuel, in both directions, a routine does what the source of its method says.
/// So the laws of all fragments in it hold, without assumptions.
pub fn program_images_have_routines()
    ensures { ProgramImagesHaveRoutines }
{}
