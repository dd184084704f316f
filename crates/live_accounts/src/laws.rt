// A law of positions, the contract of a function.
ghost use Rattle.live_accounts.specs.AccountLaws.{PositionsAreOne};

/// At a position of a run the machine is in one place, and the run has one cost up to there.
pub fn positions_are_one()
    ensures { PositionsAreOne }
{}
