// Why a program is refused for its types.
use thiserror::Error;

/// Why a program is refused for its types. `at` is a place in bytes from the start of the text:
/// if nothing else is said, that of the statement.
#[derive(Debug, Drop, Error)]
pub enum TypeError {
    /// The name at `at` means nothing.
    #[error("the name at byte {at} means nothing")]
    UnknownName { at: u32 },
    /// The name at `at` is that of a visible parameter or local.
    #[error("the name at byte {at} is declared already")]
    Redeclared { at: u32 },
    /// A type is not the expected one. `at` is the statement, operator, expression, argument or
    /// closing name.
    #[error("the types at byte {at} do not fit")]
    TypeDiffers { at: u32 },
    /// The variable that is changed occurs in what changes it. `at` is the statement, or the
    /// receiver of a call.
    #[error("what changes at byte {at} occurs in what changes it")]
    SelfUpdate { at: u32 },
    /// One variable is passed for two. `at` is the argument of a call, or the statement.
    #[error("one variable stands for two at byte {at}")]
    SameArgument { at: u32 },
    /// A field is an argument of a call on the same object.
    #[error("a field is an argument of the call at byte {at}")]
    FieldArgument { at: u32 },
    /// A call has another number of arguments than its method. `at` is the method's name.
    #[error("the method at byte {at} takes another number of arguments")]
    WrongArity { at: u32 },
    /// The variable at `at` has an index and is no array.
    #[error("the variable at byte {at} is no array")]
    NotAnArray { at: u32 },
    /// The operator at `at` has no inverse here: `*`, `/` and `%` are refused.
    #[error("the operator at byte {at} is refused")]
    RefusedOperator { at: u32 },
    /// A local occurs in an expression that gives it its value.
    #[error("the local at byte {at} occurs in its own expression")]
    LocalInOwnExpression { at: u32 },
    /// What is copied or called is of no class type. `at` is the statement, or the receiver of a call.
    #[error("what stands at byte {at} is of no class type")]
    NotClassType { at: u32 },
    /// There is not enough memory.
    #[error("there is not enough memory")]
    NoMemory,
}
