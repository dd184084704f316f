// The inverse law, each form of it the contract of a function.
ghost use Rattle.meaning_inverse.specs.InverseLaws.{InverseLaw, InputComesBack, BlocksUndo, StartHasElements, ArraysKeepElements};
ghost use Rattle.meaning_inverse.specs.InversePrograms.{InverseIsAccepted, InverseMainUndoes, FinalFieldsAreInput, InverseProgramUndoes};

/// What an accepted program did, the inverse of its main method undoes.
pub fn inverses_undo()
    ensures { InverseLaw }
{}

/// Run back, a program prints what it would have printed at its start.
pub fn input_comes_back()
    ensures { InputComesBack }
{}

/// The inverse of a checked block undoes what it did from a sound state.
pub fn blocks_undo()
    ensures { BlocksUndo }
{}

/// At the start of a run each array has elements: none is there.
pub fn start_has_elements()
    ensures { StartHasElements }
{}

/// What a checked block does leaves each array its elements.
pub fn arrays_keep_elements()
    ensures { ArraysKeepElements }
{}

/// The inverse program of an accepted program is accepted.
pub fn inverse_is_accepted()
    ensures { InverseIsAccepted }
{}

/// What an accepted program did, the main method of its inverse program undoes from the end, at the
/// same cost.
pub fn inverse_main_undoes()
    ensures { InverseMainUndoes }
{}

/// If no final field of the main object names an object or array, the words among the final
/// fields are an input.
pub fn final_fields_are_input()
    ensures { FinalFieldsAreInput }
{}

/// What an accepted program did, its inverse program undoes at the same cost, if it is run with the
/// final fields as its input. These must be an input, and the free lists must again be those of an
/// empty heap. It prints the report of the start.
pub fn inverse_program_undoes()
    ensures { InverseProgramUndoes }
{}
