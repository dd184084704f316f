// What holds for all texts.
ghost use Rattle.std.specs.Prelude.{◌≡◌, ℕ, List, Option};
ghost use Rattle.roopl_lexer.specs.declared.token.Token.{Token};
ghost use Rattle.rpp_tree.specs.Refusal.{Refusal};
ghost use Rattle.roopl_lexer.specs.Tokens.{Cut};

/// A text is cut into one list of tokens, or refused for one reason, and never both.
pub fn one_cutting()
    ensures { (text : List ℕ) (a b : List Token) (x y : Option Refusal) → Cut 0 text a x
        → Cut 0 text b y → (a ≡ b) × (x ≡ y) }
{}
