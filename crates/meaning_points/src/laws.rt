// Laws of the trace points of a run, each the contract of a function.
ghost use Rattle.meaning_points.specs.PointLaws.{MoreFuelAdds};
ghost use Rattle.meaning_points.specs.WrittenOut.{ConstructIsWrittenOut, CallIsWrittenOut};

/// More fuel only adds points to a run, and adds none if it is over.
pub fn more_fuel_adds()
    ensures { MoreFuelAdds }
{}

/// A `construct` runs, there and back, as the `local`, `new`, `delete` and `delocal` that it means,
/// and passes their trace points.
pub fn construct_is_written_out()
    ensures { ConstructIsWrittenOut }
{}

/// A call on an element runs, there and back, as the local variable, the swaps and the call that it
/// means, and passes their trace points.
pub fn call_is_written_out()
    ensures { CallIsWrittenOut }
{}
