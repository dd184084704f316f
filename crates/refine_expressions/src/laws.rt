// What code of expressions does over current frames, each law the contract of a function.
ghost use Rattle.refine_expressions.specs.Laws.{TestsAreTold, ValuesAreTold, UpdatesAreTold, SwapsAreTold};

/// The code of a condition xors the truth value of the source's value into the flag, wherever the
/// frame is open.
pub fn tests_are_told()
    ensures { TestsAreTold }
{}

/// The code of a value xors the word of the source's value into its register, of a value of any type.
pub fn values_are_told()
    ensures { ValuesAreTold }
{}

/// The code of an update does what the source says of it, in both directions, wherever the frame is
/// open.
pub fn updates_are_told()
    ensures { UpdatesAreTold }
{}

/// The code of a swap does what the source says of it, in both directions, of places of any type.
pub fn swaps_are_told()
    ensures { SwapsAreTold }
{}
