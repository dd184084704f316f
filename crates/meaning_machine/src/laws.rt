// Laws of the machine, each the contract of a function.
ghost use Rattle.std.specs.Prelude.{ℕ, List};
ghost use Rattle.meaning_points.specs.rpp_words.declared.input.FieldWord.{FieldWord};
ghost use Rattle.meaning_points.specs.rpp_words.declared.input.Limits.{Limits};
ghost use Rattle.meaning_points.specs.rpp_tree.Tree.{Source};
ghost use Rattle.meaning_machine.specs.MachineLaws.{MachineIsMeaning};
ghost use Rattle.meaning_machine.specs.SourceLaws.{SourceIsMachine};
ghost use Rattle.meaning_machine.specs.TrailLaws.{TrailIsWalked};
ghost use Rattle.meaning_machine.specs.BackLaws.{ChoicesStepBack, TurnsStepBack};
ghost use Rattle.meaning_machine.specs.Placed.{TurnsTwice, StaysPlaced, BranchesStepBack};

/// The machine does what the semantics says of a block.
pub fn machine_is_meaning()
    ensures { MachineIsMeaning }
{}

/// The machine's steps from the start of a program are its source, with every fuel.
pub fn source_is_machine()
    ensures { (program : Source) (limits : Limits) (input : List FieldWord) (fuel : ℕ)
        → SourceIsMachine program limits input fuel }
{}

/// The trace points that it passes are those of the run, in their order.
pub fn trail_is_walked()
    ensures { (program : Source) (limits : Limits) (input : List FieldWord) (n : ℕ)
        → TrailIsWalked program limits input n }
{}

/// A step of the reversed machine undoes a step into a choice, or out of one.
pub fn choices_step_back()
    ensures { ChoicesStepBack }
{}

/// So is each step of a loop.
pub fn turns_step_back()
    ensures { TurnsStepBack }
{}

/// The machine that is reversed twice is as it was.
pub fn turns_twice()
    ensures { TurnsTwice }
{}

/// Each block of a run is the one that its enclosing statement has: at the start, after each step,
/// and if the machine is reversed.
pub fn stays_placed()
    ensures { StaysPlaced }
{}

/// In each valid configuration, a step of the reversed machine undoes a step of a choice or a loop.
pub fn branches_step_back()
    ensures { BranchesStepBack }
{}
