// Laws of runs, each the contract of a function.
ghost use Rattle.std.specs.Prelude.{ℕ, List};
ghost use Rattle.source_checks.specs.rpp_words.declared.input.FieldWord.{FieldWord};
ghost use Rattle.source_checks.specs.rpp_words.declared.input.Limits.{Limits};
ghost use Rattle.source_statements.specs.rpp_tree.Tree.{Source};
ghost use Rattle.source_statements.specs.rpp_tree.Tree.{Expression};
ghost use Rattle.source_checks.specs.roopl_semantics.Store.{State};
ghost use Rattle.source_checks.specs.roopl_semantics.Value.{value};
ghost use Rattle.source_checks.specs.Checks.{failing_access};
ghost use Rattle.source_execution.specs.FailureLaws.{FailsAsMeant, Accesses};

/// A step of a run stops with a fault exactly if the program means that fault.
pub fn a_step_fails_as_meant()
    ensures { (program : Source) (limits : Limits) (input : List FieldWord) (code : ℕ)
        → FailsAsMeant program limits input code }
{}

/// An evaluation that meets a fault compares an element that is not there, and one that gives a
/// value compares nothing.
pub fn what_fails_is_not_there()
    ensures { (program : Source) (st : State) (e : Expression)
        → Accesses (failing_access program st e) (value program st e) }
{}
