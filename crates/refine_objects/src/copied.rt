// What code of copies does over current frames, each law the contract of a function.
ghost use Rattle.refine_objects.specs.CopyLaws.{CopiesAreTold, UncopiesAreTold};

/// The code of a copy does what the source says of it, in both directions, of objects and of
/// arrays.
pub fn copies_are_told()
    ensures { CopiesAreTold }
{}

/// The inverse of the code of a copy does what the source says of an uncopy, in both directions.
pub fn uncopies_are_told()
    ensures { UncopiesAreTold }
{}
