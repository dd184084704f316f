// Laws of images, each the contract of a function that does nothing.
ghost use Rattle.program_codegen.specs.Endless.{EndlessImagesRunOn};
ghost use Rattle.program_codegen.specs.Subroutines.{CallsEnterBySwapbr};

/// If the source never ends, an image that implements the program never stops: only the step limit
/// ends its runs.
pub fn endless_images_run_on()
    ensures { EndlessImagesRunOn }
{}

/// In an image with the marks of a program each slot of a class table leads to the SWAPBR cell of a
/// routine in the subroutine form. There, calls of the method enter and leave, in both directions.
pub fn calls_enter_by_swapbr()
    ensures { CallsEnterBySwapbr }
{}
