// Laws of inverses, each the contract of a function.
ghost use Rattle.inverse_rules.specs.Laws.{InvertsTwice};

/// What is inverted twice is as it was.
pub fn inverts_twice()
    ensures { InvertsTwice }
{}
