// What holds for all lists of tokens.
ghost use Rattle.std.specs.Prelude.{◌≡◌, ◌≤◌, ◌↔◌, None, List, length};
ghost use Rattle.roopl_lexer.specs.rpp_tree.Tree.{Source};
ghost use Rattle.roopl_lexer.specs.rpp_tree.declared.limits.TheConstants.{MOST_PARENS, MOST_TOKENS};
ghost use Rattle.roopl_lexer.specs.declared.token.Token.{Token};
ghost use Rattle.roopl_parser.specs.Grammar.{Derives};
ghost use Rattle.roopl_parser.specs.Parens.{classes_parens};
ghost use Rattle.roopl_parser.specs.Viable.{IsSmall, first_limit};

/// The tokens of a program have one syntax tree.
pub fn one_tree()
    ensures { (tokens : List Token) (x y : Source) → Derives tokens x → Derives tokens y → x ≡ y }
{}

/// No token passes a limit exactly if the syntax tree, its tokens and their parentheses keep the
/// limits.
pub fn no_limit_passed()
    ensures { (tokens : List Token) (x : Source) (derived : Derives tokens x)
        → (first_limit tokens ≡ None) ↔ ((length tokens ≤ MOST_TOKENS) × IsSmall x
        × (classes_parens derived ≤ MOST_PARENS)) }
{}
