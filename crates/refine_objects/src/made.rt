// What code of `new` and `delete` does over current frames, each law the contract of a function.
ghost use Rattle.refine_objects.specs.MadeLaws.{NewsAreTold, DeletesAreTold};

/// The code of a `new` does what the source says of it, in both directions, of objects and of
/// arrays.
pub fn news_are_told()
    ensures { NewsAreTold }
{}

/// The inverse of the code of a `new` does what the source says of a `delete`, in both directions.
pub fn deletes_are_told()
    ensures { DeletesAreTold }
{}
