// What current frames have, each law the contract of a function.
ghost use Rattle.refine_calls.specs.Laws.{FramesAreOpen, ReceiversAreOpen, LocalsAreOpen, MainIsOpen};

/// A current frame has what calls on the current object take as premises, if the image is linked
/// from an accepted program.
pub fn frames_are_open()
    ensures { FramesAreOpen }
{}

/// A current frame has what calls on the object of a variable assume in addition.
pub fn receivers_are_open()
    ensures { ReceiversAreOpen }
{}

/// A current frame has what blocks with a local variable take, for variables of any type.
pub fn locals_are_open()
    ensures { LocalsAreOpen }
{}

/// The loaded memory is the current frame of `main`, and if that ends, its memory is the layout.
pub fn main_is_open()
    ensures { MainIsOpen }
{}
