// What keeps a text from being a program.
ghost use Rattle.std.specs.Prelude.{◌≡◌};
ghost use Rattle.reversible_types.specs.Verdicts.{refusal_of};
ghost use Rattle.reversible_types.specs.class_rules.Refusal.{class_refusal};
ghost use Rattle.token_limits.specs.roopl_lexer.Tokens.{lex_refusal};
ghost use Rattle.roopl_judge.specs.Errors.{parse_refusal, error_of};
ghost use Rattle.roopl_judge.specs.declared.error.SourceError.TheVariants.{NoMemory};

use reversible_types::{ClassError, TypeError};
use std::alloc::{AllocError, AllocFailed};
use token_limits::{LexError, ParseError};

/// Why a source is no program.
#[derive(Debug, Drop)]
pub enum SourceError {
    /// The refusal of this number, at this place in bytes from the start of the text.
    Refused { number: u32, at: u32 },
    /// There is not enough memory.
    NoMemory,
}

impl From<AllocError> for SourceError {
    ghost from_gives = { λ _ e. e ≡ NoMemory };

    fn from(_: AllocError) -> Self {
        SourceError::NoMemory
    }
}

impl<T: Drop> From<AllocFailed<T>> for SourceError {
    ghost from_gives = { λ _ e. e ≡ NoMemory };

    fn from(_: AllocFailed<T>) -> Self {
        SourceError::NoMemory
    }
}

fn refused(number: u32, at: u32) -> SourceError
    ensures { result ≡ SourceError.Refused number at }
{
    SourceError::Refused { number, at }
}

/// The refusal of the lexer.
pub fn of_lexer(error: LexError) -> SourceError
    ensures { result ≡ error_of (lex_refusal error) }
{
    match error {
        LexError::BadByte { at } => refused(1, at),
        LexError::NumberTooLarge { at } => refused(2, at),
        LexError::NoMemory => SourceError::NoMemory,
    }
}

/// The refusal of the parser.
pub fn of_parser(error: ParseError) -> SourceError
    ensures { result ≡ error_of (parse_refusal error) }
{
    match error {
        ParseError::Syntax { at } => refused(3, at),
        ParseError::Limit { at, .. } => refused(4, at),
        ParseError::NoMemory => SourceError::NoMemory,
    }
}

/// The refusal of the class table.
pub fn of_class_table(error: ClassError) -> SourceError
    ensures { result ≡ error_of (class_refusal error) }
{
    match error {
        ClassError::Limit { at, .. } => refused(4, at),
        ClassError::DuplicateClass { at } => refused(5, at),
        ClassError::UnknownClass { at } => refused(6, at),
        ClassError::InheritanceCycle { at } => refused(7, at),
        ClassError::DuplicateField { at } => refused(8, at),
        ClassError::DuplicateMethod { at } => refused(9, at),
        ClassError::OverrideDiffers { at } => refused(10, at),
        ClassError::NoMain { at } => refused(11, at),
        ClassError::TwoMains { at } => refused(12, at),
        ClassError::NoMemory => SourceError::NoMemory,
    }
}

/// The refusal of the types.
pub fn of_types(error: TypeError) -> SourceError
    ensures { result ≡ SourceError.Refused (refusal_of error).number (refusal_of error).at }
{
    match error {
        TypeError::UnknownName { at } => refused(13, at),
        TypeError::Redeclared { at } => refused(14, at),
        TypeError::TypeDiffers { at } => refused(15, at),
        TypeError::SelfUpdate { at } => refused(16, at),
        TypeError::SameArgument { at } => refused(17, at),
        TypeError::FieldArgument { at } => refused(18, at),
        TypeError::WrongArity { at } => refused(19, at),
        TypeError::NotAnArray { at } => refused(20, at),
        TypeError::RefusedOperator { at } => refused(21, at),
        TypeError::LocalInOwnExpression { at } => refused(22, at),
        TypeError::NotClassType { at } => refused(23, at),
        // `check` takes no memory, so that it runs out is no result of its.
        TypeError::NoMemory => refused(0, 0),
    }
}
