// Laws of steps back, each the contract of a function.
ghost use Rattle.meaning_reversed.specs.ReverseLaws.{StepsAreUndone};

/// A step of the reversed machine undoes each step of a run of an accepted program. It leads to
/// exactly the same configuration, object ids included.
pub fn steps_are_undone()
    ensures { StepsAreUndone }
{}
