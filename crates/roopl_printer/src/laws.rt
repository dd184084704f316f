// Laws of printed texts, each the contract of a function.
ghost use Rattle.roopl_printer.specs.Laws.{CutsAgain, ReadsBack};

/// The lexer cuts a printed text into the tokens that were printed.
pub fn cuts_again()
    ensures { CutsAgain }
{}

/// The parser reads the tokens of a printed text as a syntax tree like the one that was printed.
pub fn reads_back()
    ensures { ReadsBack }
{}
