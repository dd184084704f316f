// What new objects and arrays, and those that are given back, do to current frames, each law the
// contract of a function.
ghost use Rattle.refine_objects.specs.OpenLaws.{NewsAreOpen, DeletesAreOpen};

/// A new object or array is in a block of zeros, and the frame is current with it.
pub fn news_are_open()
    ensures { NewsAreOpen }
{}

/// An object or array of zeros that has only one reference is deleted, and the frame is current
/// without it.
pub fn deletes_are_open()
    ensures { DeletesAreOpen }
{}
