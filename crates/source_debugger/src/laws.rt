// Laws of what commands print, each the contract of a function.
ghost use Rattle.source_debugger.specs.DebuggerLaws.{MoreFuelTells, EndIsTheSources};

/// What commands print from the start of a run on, they print with more fuel too.
pub fn more_fuel_tells()
    ensures { MoreFuelTells }
{}

/// At the end trace point the state is the one that the source gives.
pub fn end_is_the_sources()
    ensures { EndIsTheSources }
{}
