// How the laws of statements join, each law the contract of a function.
ghost use Rattle.refine_form.specs.Laws.{NothingIsABlock, BlocksAreRows, NothingIsOwed};

/// No code is the code of the empty block.
pub fn nothing_is_a_block()
    ensures { NothingIsABlock }
{}

/// The code of a statement and then that of a block is the code of the two.
pub fn blocks_are_rows()
    ensures { BlocksAreRows }
{}

/// If each routine's body has the law of its method, nothing more is assumed about the routines,
/// for any fuel.
pub fn nothing_is_owed()
    ensures { NothingIsOwed }
{}
