// Laws of the meaning, each the contract of a function.
ghost use Rattle.roopl_semantics.specs.Laws.{MoreFuelKeeps, CostIsEnough, StartsLoaded};
ghost use Rattle.roopl_semantics.specs.Exact.{ImagesAreExact};

/// A program that ends with some fuel ends the same with more.
pub fn more_fuel_keeps()
    ensures { MoreFuelKeeps }
{}

/// A block that ends with some fuel ends the same with any fuel from its cost on.
pub fn cost_is_enough()
    ensures { CostIsEnough }
{}

/// An image that implements a program finishes with a store, given steps enough, exactly if the
/// semantics gives that store. It stops with a fault exactly if the semantics does.
pub fn images_are_exact()
    ensures { ImagesAreExact }
{}

/// The memory of the starting store is the loaded memory.
pub fn starts_loaded()
    ensures { StartsLoaded }
{}
