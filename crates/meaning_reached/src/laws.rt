// What is reached and reported, each law the contract of a function.
ghost use Rattle.meaning_sound.specs.roopl_semantics.Laws.{SameReports};
ghost use Rattle.meaning_reached.specs.Ending.{ExecutionReaches, EndsReached};

/// What is done by a checked block of an accepted program keeps every live object and array reached.
pub fn execution_reaches()
    ensures { ExecutionReaches }
{}

/// At the end of every run of an accepted program each live object and array is reachable from the
/// main object. So the store is unambiguous, and the number in the report's last line counts the
/// objects that the report numbers.
pub fn ends_reached()
    ensures { EndsReached }
{}

/// Isomorphic stores have one report, if no object id occurs twice.
pub fn reports_agree()
    ensures { SameReports }
{}
