// Programs.
ghost use Rattle.std.specs.Prelude.{◌≡◌, ◌≢◌, ℕ, IfOk, Err, Ok, Option, Some, None, MatchResult};
ghost use Rattle.roopl_lexer.specs.rpp_tree.declared.limits.LimitKind.{LimitKind};
ghost use Rattle.roopl_lexer.specs.rpp_tree.declared.limits.LimitKind.TheVariants.{Tokens};
ghost use Rattle.roopl_lexer.specs.rpp_tree.Limits.{IsWithinLimits};
ghost use Rattle.roopl_lexer.specs.rpp_tree.Tree.{Source};
ghost use Rattle.roopl_lexer.specs.rpp_tree.Views.{source_of};
ghost use Rattle.roopl_parser.specs.Grammar.{Derives};
ghost use Rattle.roopl_parser.specs.Readable.{AreSmallTokens, IsReadable};
ghost use Rattle.roopl_parser.specs.Reader.{Classes};
ghost use Rattle.roopl_parser.specs.declared.error.ParseError.{ParseError};
ghost use Rattle.roopl_parser.specs.Viable.{IsWrongAt, IsTokenReached, first_limit, reading};

use crate::class::classes;
use crate::error::ParseError;
use crate::single::next;
use roopl_lexer::Token;
use roopl_lexer::limits::{LimitKind, MOST_TOKENS};
use roopl_lexer::tree::Program;
use std::alloc::Global;

/// The syntax tree of the tokens, read by the machine.
#[tactic(auto, unfolding(crate::specs::Reader::scan, crate::specs::Reader::walk, crate::specs::Reader::ends))]
fn whole(alloc: Global, tokens: &[Token], end: u32) -> Result<Program, ParseError>
    ensures reads { MatchResult result (λ b. reading end tokens.now
        ≡ Ok (Classes (source_of b).classes)) (λ e. e ≢ ParseError.NoMemory
        → reading end tokens.now ≡ Err e) }
{
    if tokens.len() > MOST_TOKENS as usize {
        return Err(ParseError::Limit {
            which: LimitKind::Tokens,
            at: tokens[MOST_TOKENS as usize].at,
        });
    }
    let (classes, rest) = classes(alloc, end, tokens)?;
    match next(rest) {
        None => Ok(Program { classes }),
        Some((first, _)) => Err(ParseError::Syntax { at: first.at }),
    }
}

/// The syntax tree of the tokens of a text that has `end` bytes.
pub fn parse(alloc: Global, tokens: &[Token], end: u32) -> Result<Program, ParseError>
    requires { IsReadable tokens.now end }
    // What is read is the syntax tree that the grammar gives, and no token passes a limit.
    ensures tree { IfOk result (λ b. Derives tokens.now (source_of b) × (first_limit tokens.now ≡ None)) }
    // The syntax tree keeps the limits that a syntax tree shows, if the lexer lets the numbers of
    // the tokens through.
    ensures limits { AreSmallTokens tokens.now → IfOk result (λ b. IsWithinLimits (source_of b)) }
    // What the grammar derives and passes no limit is read, unless memory runs out, and only as
    // this syntax tree.
    ensures only { (x : Source) → Derives tokens.now x → first_limit tokens.now ≡ None
        → MatchResult result (λ b. source_of b ≡ x) (λ e. e ≡ ParseError.NoMemory) }
    // A syntax error is at the first token with which no program's tokens begin so, and no token
    // before it passes a limit;
    ensures syntax { (at : ℕ) → result ≡ Err (ParseError.Syntax at) → IsWrongAt end tokens.now at
        × (first_limit tokens.now ≡ None) }
    // and it comes wherever that is so, unless memory runs out.
    ensures wrong { (at : ℕ) → IsWrongAt end tokens.now at → first_limit tokens.now ≡ None
        → MatchResult result (λ b. ⊥) (λ e. e ≢ ParseError.NoMemory → e ≡ ParseError.Syntax at) }
    // A limit is that of tokens, or at the first token that passes one, and then a program's tokens
    // begin so;
    ensures limit { (which : LimitKind) (at : ℕ) → result ≡ Err (ParseError.Limit which at)
        → (first_limit tokens.now ≡ Some (ParseError.Limit which at))
        × (which ≢ Tokens → IsTokenReached tokens.now at) }
    // and it comes wherever one is passed, unless memory runs out.
    ensures passed { (limit : ParseError) → first_limit tokens.now ≡ Some limit
        → MatchResult result (λ b. ⊥) (λ e. e ≢ ParseError.NoMemory → e ≡ limit) }
{
    whole(alloc, tokens, end)
}
