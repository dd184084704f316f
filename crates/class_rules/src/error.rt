// Why a class table is refused.
use rpp_tree::limits::LimitKind;
use thiserror::Error;

/// Why a class table is refused. `at` is the place of a name, in bytes from the start of the text.
#[derive(Debug, Drop, Error)]
pub enum ClassError {
    /// A class has more fields or method slots than the limit. `at` is the class's name.
    #[error("a limit is passed at byte {at}")]
    Limit { which: LimitKind, at: u32 },
    /// An earlier class has the name.
    #[error("an earlier class has the name at byte {at}")]
    DuplicateClass { at: u32 },
    /// The name after `inherits`, or in the type of a field or parameter, is no class.
    #[error("no class has the name at byte {at}")]
    UnknownClass { at: u32 },
    /// The chain of parents from the class does not end. `at` is the class's name.
    #[error("the class at byte {at} inherits from itself")]
    InheritanceCycle { at: u32 },
    /// An earlier field of the class or an inherited field has the name.
    #[error("an earlier field has the name at byte {at}")]
    DuplicateField { at: u32 },
    /// An earlier method of the class has the name.
    #[error("an earlier method has the name at byte {at}")]
    DuplicateMethod { at: u32 },
    /// The inherited method of the name has another list of parameter types.
    #[error("the method at byte {at} overrides one with other parameters")]
    OverrideDiffers { at: u32 },
    /// No class declares a method `main` without parameters. `at` is the end of the text.
    #[error("there is no method `main` without parameters")]
    NoMain { at: u32 },
    /// Two methods `main` without parameters are declared. `at` is the second's name.
    #[error("a second method `main` stands at byte {at}")]
    TwoMains { at: u32 },
    /// There is not enough memory.
    #[error("there is not enough memory")]
    NoMemory,
}
