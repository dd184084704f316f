// Laws of limits, each the contract of a function.
ghost use Rattle.token_limits.specs.Laws.{CountsDerived, CountsUpToWrong, CountsPassed};

/// The limit that is counted over the tokens is the one that the parser finds: in the tokens of a
/// program, before a wrong token, and up to the token that passes it.
pub fn counted_limits()
    ensures derived { CountsDerived }
    ensures wrong { CountsUpToWrong }
    ensures passed { CountsPassed }
{}
