// What execution keeps, each law the contract of a function.
ghost use Rattle.roopl_semantics.specs.Laws.{CountsAreReferences};
ghost use Rattle.meaning_sound.specs.Kept.{AcceptedIsPlain, StartIsSound, ExecutionKeeps, EndIsSound};

/// In an accepted program every literal is a word, and no name is empty.
pub fn accepted_is_plain()
    ensures { AcceptedIsPlain }
{}

/// The state in which a run begins is sound; only the main object is referenced from elsewhere,
/// once.
pub fn start_is_sound()
    ensures { StartIsSound }
{}

/// What is done by a checked block of an accepted program, whatever its statements, keeps a sound
/// state sound.
pub fn execution_keeps()
    ensures { ExecutionKeeps }
{}

/// The state with which a run of an accepted program is done is sound.
pub fn end_is_sound()
    ensures { EndIsSound }
{}

/// At the end of every run of an accepted program the count of an object or array is the number of
/// cells that hold its name.
pub fn counts_are_held()
    ensures { CountsAreReferences }
{}
